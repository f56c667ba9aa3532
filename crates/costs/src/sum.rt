ghost use Rattle.std.specs.Prelude.{codes};
ghost use Rattle.costs.specs.Sums.{sum};
ghost use Rattle.costs.specs.SumLaws.{sum_lawful};

use crate::Cost;

// The numbers of the links, added up.
impl Cost for u32 {
    ghost costs = { sum };

    ghost title = { codes "sum" };

    ghost lawful = { sum_lawful };

    fn zero() -> u32 {
        0
    }

    fn read(number: u32) -> Option<u32> {
        (1..=65535).contains(&number).then_some(number)
    }

    #[tactic(auto, using(crate::specs::SumLaws::joins_bound))]
    fn join(self, other: u32) -> u32 {
        self + other
    }

    fn lower(self, other: u32) -> bool {
        self < other
    }

    fn name<'a>() -> &'a [u8] {
        b"sum"
    }
}
