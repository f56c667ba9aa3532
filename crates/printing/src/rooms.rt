// The memories that settling works in.
ghost use Rattle.std.specs.Prelude.{vec_len};
ghost use Rattle.printing.specs.Rooms.{Room};

use costs::Cost;
use entries::Entry;
use std::alloc::{AllocError, Global};

// Memories for up to 32 routers: the best costs, the rest costs and the entries that wait.
#[derive(Drop)]
pub(crate) struct Rooms<C> {
    pub(crate) best: Vec<C>,
    pub(crate) rest: Vec<C>,
    pub(crate) waiting: Vec<Entry<C>>,
    ghost room: { Room (vec_len best) (vec_len rest) (vec_len waiting) },
}

impl<C: Cost> Rooms<C> {
    // Memories that hold the cost of the empty route.
    pub(crate) fn new(heap: Global) -> Result<Rooms<C>, AllocError> {
        let zero = C::zero();
        let entry = Entry {
            cost: zero,
            router: 0,
        };
        let best = vec![in heap; zero; 32]?;
        let rest = vec![in heap; zero; 1024]?;
        let waiting = vec![in heap; entry; 1024]?;
        Ok(Rooms {
            best,
            rest,
            waiting,
        })
    }
}
