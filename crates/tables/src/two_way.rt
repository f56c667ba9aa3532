ghost use Rattle.std.specs.Prelude.{◌≡◌};
ghost use Rattle.tables.specs.Meaning.{means};
ghost use Rattle.tables.specs.Tables.{Put, Cut, Unchanged};
ghost use Rattle.tables.specs.TwoWays.{two_way_table, two_way_lawful};

use crate::table::LinkTable;
use faults::Fault;

// The two-way check over a table: it shows a pair's number only where the reverse is shown too.
#[derive(Drop)]
pub struct TwoWay<T> {
    below: T,
}

impl<T: LinkTable> TwoWay<T> {
    pub fn new(below: T) -> TwoWay<T>
        ensures { result.below ≡ below }
    {
        TwoWay { below }
    }
}

// kept: clauses of an impl stand in place of the trait's, so put and cut, which say more, repeat those two.
impl<T: LinkTable> LinkTable for TwoWay<T> {
    ghost kept = { λ t. (two_way_table (means T.LinkTable t.below)).kept };

    ghost shown = { λ t. (two_way_table (means T.LinkTable t.below)).shown };

    ghost count = { λ t. (two_way_table (means T.LinkTable t.below)).count };

    ghost greatest = { λ t. (two_way_table (means T.LinkTable t.below)).greatest };

    ghost limit = { λ t. (two_way_table (means T.LinkTable t.below)).limit };

    ghost plain = { λ t. (two_way_table (means T.LinkTable t.below)).plain };

    ghost laws = { λ t. two_way_lawful (means T.LinkTable t.below) (T.LinkTable.laws t.below) };

    fn count(&self) -> usize {
        self.below.count()
    }

    fn greatest(&self) -> u32 {
        self.below.greatest()
    }

    fn limit(&self) -> usize {
        self.below.limit()
    }

    fn is_plain(&self) -> bool {
        false
    }

    fn number(&self, from: usize, to: usize) -> Option<u32> {
        self.below.number(to, from)?;
        self.below.number(from, to)
    }

    fn put(&mut self, from: usize, to: usize, number: u32) -> Result<(), Fault>
        ensures table { Put from to number (two_way_table (means T.LinkTable self.old.below)) result (two_way_table (means T.LinkTable self.new.below)) }
        ensures below { Put from to number (means T.LinkTable self.old.below) result (means T.LinkTable self.new.below) }
        ensures refused { Unchanged result self.old self.new }
    {
        self.below.put(from, to, number)
    }

    fn cut(&mut self, from: usize, to: usize) -> Result<(), Fault>
        ensures table { Cut from to (two_way_table (means T.LinkTable self.old.below)) result (two_way_table (means T.LinkTable self.new.below)) }
        ensures below { Cut from to (means T.LinkTable self.old.below) result (means T.LinkTable self.new.below) }
        ensures refused { Unchanged result self.old self.new }
    {
        self.below.cut(from, to)
    }
}
