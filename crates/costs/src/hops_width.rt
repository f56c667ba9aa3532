ghost use Rattle.std.specs.Prelude.{codes};
ghost use Rattle.costs.specs.Paths.{hops_width};
ghost use Rattle.costs.specs.PathLaws.{path_lawful};

use crate::Cost;
use crate::path::PathCost;

// Fewer links first, and then the greater width.
impl Cost for PathCost {
    ghost costs = { hops_width };

    ghost title = { codes "hops-width" };

    ghost lawful = { path_lawful };

    #[tactic(auto, using(crate::specs::PathLaws::same_path))]
    fn zero() -> PathCost {
        PathCost {
            hops: 0,
            width: u32::MAX,
        }
    }

    #[tactic(auto, using(crate::specs::PathLaws::same_path))]
    fn read(number: u32) -> Option<PathCost> {
        (number >= 1).then_some(PathCost {
            hops: 1,
            width: number,
        })
    }

    #[tactic(auto, using(crate::specs::PathLaws::same_path, crate::specs::PathLaws::joins_hops))]
    fn join(self, other: PathCost) -> PathCost {
        PathCost {
            hops: self.hops + other.hops,
            width: self.width.min(other.width),
        }
    }

    fn lower(self, other: PathCost) -> bool {
        self.hops < other.hops || (self.hops == other.hops && other.width < self.width)
    }

    fn name<'a>() -> &'a [u8] {
        b"hops-width"
    }
}
