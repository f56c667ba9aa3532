// Writing into memory that the caller hands in.
#![tactic(auto)]

ghost use Rattle.std.specs.Prelude.{◌≡◌, ◌+◌, nat_le};
ghost use Rattle.memory.specs.Writes.{write_answer, write_leaves};

use faults::Refusal;

// Whether so many items fit into a memory of this length from the place `at` on.
pub fn has_room(len: usize, at: usize, many: usize) -> bool
    ensures { result ≡ nat_le (at + many) len }
{
    at <= len && many <= len - at
}

// Writes the items from the place `at` on and answers the place behind them;
// where they do not fit, refuses by 5 and leaves the memory as it was.
pub fn write<T: Copy>(out: &mut [T], at: usize, items: &[T]) -> Result<usize, Refusal>
    ensures answer { result ≡ write_answer out.old at items.now }
    ensures memory { out.new ≡ write_leaves out.old at items.now }
{
    if !has_room(out.len(), at, items.len()) {
        return Err(Refusal::MemoryTooShort);
    }
    let end = at + items.len();
    out[at..end].copy_from_slice(items);
    Ok(end)
}
