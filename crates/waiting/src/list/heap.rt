// The parent of place k is place (k - 1) / 2; no entry comes before the entry at its parent.
ghost use Rattle.std.specs.Prelude.{◌≡◌, ◌+◌, ◌*◌, ◌<◌, ◌≤◌, length, slice_index_or};
ghost use Rattle.std.specs.List.{swap};
ghost use Rattle.waiting.specs.Heap.{Heaped, Light, Heavy, LeastChild};
ghost use Rattle.waiting.specs.Waiting.{memory, handed, Stirred, PushAnswer, PopAnswer};

use crate::Ranked;
use crate::list::Waiting;
use faults::Refusal;

impl<'a, E: Ranked> Waiting<'a, E> {
    // An empty list over the whole memory.
    pub fn new(entries: &'a mut [E]) -> Waiting<'a, E>
        ensures len { result.len ≡ 0 }
        ensures memory { memory result ≡ entries.old }
        ensures handed { handed result ≡ entries.entry.ghost_name }
    {
        Waiting { entries, len: 0 }
    }

    // Adds an entry, or refuses by `Full` where no place is left.
    pub fn push(&mut self, e: E) -> Result<(), Refusal>
        ensures answer { PushAnswer e self.old self.new result }
        ensures handed { handed self.new ≡ handed self.old }
    {
        let at = self.len;
        if at >= self.entries.len() {
            return Err(Refusal::Full);
        }
        self.entries[at] = e;
        sift_up(self.entries, at + 1, at);
        self.len = at + 1;
        Ok(())
    }

    // Takes out the lowest entry, or answers that none waits.
    pub fn pop(&mut self) -> Option<E>
        ensures answer { PopAnswer E.before self.old self.new result }
        ensures handed { handed self.new ≡ handed self.old }
    {
        if self.len == 0 {
            return None;
        }
        let last = self.len - 1;
        let top = self.entries[0];
        self.len = last;
        close_up(self.entries, last);
        Some(top)
    }
}

// The functions from here on take the memory alone: while an entry is on its way it is no heap, and a `Waiting` has to be one
// wherever it lends its memory to a call.

// Moves the entry at `at` up, until it does not come before its parent.
fn sift_up<E: Ranked>(entries: &mut [E], len: usize, mut at: usize)
    requires inside { (at < len) × (len ≤ length entries.old) }
    requires light { Light E.before entries.old len at }
    ensures stirred { Stirred len entries.old entries.new }
    ensures heaped { Heaped E.before entries.new len }
{
    while at > 0 {
        let parent = (at - 1) / 2;
        if !is_before(entries, at, parent) {
            return;
        }
        entries.swap(parent, at);
        at = parent;
    }
}

// Exchanges the first entry with the one at `last`, and moves that down to where it belongs.
fn close_up<E: Ranked>(entries: &mut [E], last: usize)
    requires inside { last < length entries.old }
    requires heaped { Heaped E.before entries.old (last + 1) }
    ensures stirred { Stirred last (swap entries.old 0 last) entries.new }
    ensures heaped { Heaped E.before entries.new last }
{
    entries.swap(0, last);
    sift_down(entries, last);
}

// Moves the first entry down, until none of its children comes before it.
fn sift_down<E: Ranked>(entries: &mut [E], len: usize)
    requires inside { len ≤ length entries.old }
    requires heavy { Heavy E.before entries.old len 0 }
    ensures stirred { Stirred len entries.old entries.new }
    ensures heaped { Heaped E.before entries.new len }
{
    let mut at = 0;
    while at < len / 2 {
        let child = least_child(entries, len, at);
        if !is_before(entries, child, at) {
            return;
        }
        entries.swap(at, child);
        at = child;
    }
}

// The child of `at` before which its other child does not come.
#[tactic(auto, using(crate::proofs::Sifts::right_least))]
fn least_child<E: Ranked>(entries: &[E], len: usize, at: usize) -> usize
    requires { (2 * at + 1 < len) × (len ≤ length entries.now) }
    ensures { LeastChild E.before entries.now len at result }
{
    let left = 2 * at + 1;
    if left + 1 < len && is_before(entries, left + 1, left) {
        left + 1
    } else {
        left
    }
}

fn is_before<E: Ranked>(entries: &[E], i: usize, j: usize) -> bool
    requires { (i < length entries.now) × (j < length entries.now) }
    ensures { (d : E) → E.before (slice_index_or entries.now i d) (slice_index_or entries.now j d) ≡ result }
{
    entries[i].precedes(entries[j])
}
