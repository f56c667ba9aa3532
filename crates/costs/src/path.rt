ghost use Rattle.std.specs.Prelude.{◌^◌, ◌<◌};

// The cost of a route by its number of links and the width of its narrowest link.
#[derive(Clone, Copy, Debug, PartialEq, Eq)]
pub struct PathCost {
    pub hops: u32,
    pub width: u32,
    ghost fits: { width < 2 ^ 32 },
}
