// A router that waits to be settled, with the best cost found for it so far.
#![tactic(auto)]

ghost use Rattle.entries.specs.Entry.{entry_before};
ghost use Rattle.std.proofs.Common.{rules};

use costs::Cost;
use waiting::Ranked;

#[derive(Clone, Copy, Debug, PartialEq, Eq)]
pub struct Entry<C> {
    pub cost: C,
    pub router: usize,
}

// By cost, and at the same cost by router number.
impl<C: Cost> Ranked for Entry<C> {
    ghost before = { entry_before C.Cost.costs.lower };

    ghost ordered = { Prim.search rules };

    fn precedes(self, other: Entry<C>) -> bool {
        self.cost.lower(other.cost) || (!other.cost.lower(self.cost) && self.router < other.router)
    }
}
