// The tree of shortest paths from a root.
ghost use Rattle.std.specs.Prelude.{◌≡◌, ◌<◌, None, slice_index_or};
ghost use Rattle.routes.specs.Lists.{is_number};
ghost use Rattle.settling.specs.Rows.{other_hop};

use squares::Found;

// The father and the tree hop of each router on the page of a root, and what the search from there found.
// kept: two arrays, since the tree hops are worked out from the whole array of fathers. That the fathers and the sequence are those
// of the links (`TreeKnown`) is asked by each pass and is no ghost field: it names the place of each router in the sequence,
// which is data and no fact, and would have to be hidden there and found again in each proof. So links, tree and neighbour stay
// three parameters of the passes.
#[derive(Clone, Copy)]
pub struct Tree {
    pub root: usize,
    pub found: Found,
    pub father: [Option<usize>; 32],
    pub hop: [Option<usize>; 32],
}

impl Tree {
    // Whether a router is in the branch of the neighbour.
    pub(crate) fn in_branch(&self, neighbour: usize, router: usize) -> bool
        requires { router < 32 }
        ensures { result ≡ is_number (slice_index_or self.now.hop router None) neighbour }
    {
        self.hop[router].is_some_and(|h| h == neighbour)
    }

    // Whether a router is in another branch than that of the neighbour.
    // kept: no negation of `in_branch`, since the root and a router without a route are in no branch at all.
    pub(crate) fn in_other_branch(&self, neighbour: usize, router: usize) -> bool
        requires { router < 32 }
        ensures { result ≡ other_hop neighbour (slice_index_or self.now.hop router None) }
    {
        self.hop[router].is_some_and(|h| h != neighbour)
    }
}
