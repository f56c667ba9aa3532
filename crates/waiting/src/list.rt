ghost use Rattle.std.specs.Prelude.{◌≡◌, ◌≤◌, length};
ghost use Rattle.waiting.specs.Heap.{Heaped};

use crate::Ranked;

mod heap;
mod serve;

// The entries that wait are the first `len` of the handed memory.
// kept: the memory is the caller's (no heap), so no `Vec` or `BinaryHeap` can hold them.
#[derive(Drop)]
pub struct Waiting<'a, E: Ranked> {
    entries: &'a mut [E],
    len: usize,
    ghost within: { len ≤ length entries.now },
    // no entry comes before the entry at its parent
    ghost heaped: { Heaped E.before entries.now len },
}

impl<'a, E: Ranked> Waiting<'a, E> {
    // How many entries wait.
    pub fn len(&self) -> usize
        ensures { result ≡ self.now.len }
    {
        self.len
    }
}
