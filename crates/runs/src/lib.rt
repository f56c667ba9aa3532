// What holds over every list of calls on an area.
#![tactic(auto)]

ghost use Rattle.area.specs.Meaning.{area_of};
ghost use Rattle.runs.specs.Laws.{Law, NeverShort};

use costs::Cost;
use tables::LinkTable;

// The law over every list of calls: from a new area the ledger judges as the area does, and hops, packets and walks are right by its links.
pub fn law_over_runs<C: Cost, T: LinkTable>()
    ensures law { Law C.Cost.costs (area_of {C = C} T.LinkTable) }
    ensures arrival { NeverShort C.Cost.costs (area_of {C = C} T.LinkTable) }
{}
