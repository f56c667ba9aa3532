ghost use Rattle.std.specs.Prelude.{◌≡◌, ◌<◌, ◌≤◌, ◌++◌, ◌∷◌, [], length};

// At most 32 routers, one after another.
// kept: a count beside the places, and no ArrayVec, which is not Copy: what a search found can be copied.
#[derive(Clone, Copy)]
pub struct Sequence {
    pub routers: [u8; 32],
    // How many places of `routers` count.
    pub many: usize,
    ghost fits: { many ≤ 32 },
}

impl Sequence {
    ghost use Rattle.squares.specs.Sequences.{items};

    // The empty sequence.
    pub fn new() -> Sequence
        ensures { items result ≡ [] }
    {
        Sequence {
            routers: [0; 32],
            many: 0,
        }
    }

    // Adds a router at the end.
    pub fn push(&mut self, router: u8)
        requires { length (items self.old) < 32 }
        ensures { items self.new ≡ items self.old ++ router ∷ [] }
    {
        self.routers[self.many] = router;
        self.many += 1;
    }

    // The routers, in order.
    pub fn as_slice(&self) -> &[u8]
        ensures value { result.now ≡ items self.now }
    {
        &self.routers[..self.many]
    }
}
