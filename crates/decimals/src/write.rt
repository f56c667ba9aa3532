ghost use Rattle.std.specs.Prelude.{◌≡◌, decimal};
ghost use Rattle.memory.specs.Writes.{write_answer, write_leaves};

use faults::Refusal;
use itoa::Buffer;
use memory::write;

// Writes the number in decimal from the place `at` on and answers the place behind it;
// where it does not fit, refuses by 5 and leaves the memory as it was.
pub fn write_number(out: &mut [u8], at: usize, n: u32) -> Result<usize, Refusal>
    ensures answer { result ≡ write_answer out.old at (decimal n) }
    ensures memory { out.new ≡ write_leaves out.old at (decimal n) }
{
    let mut digits = Buffer::new();
    write(out, at, digits.format(n).as_bytes())
}
