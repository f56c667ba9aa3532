ghost use Rattle.std.specs.Prelude.{◌≡◌, ◌+◌, ◌<◌, ◌≤◌, ◌==◌, ◌++◌, length};
ghost use Rattle.masks.specs.Sets.{members};
ghost use Rattle.memory.specs.Writes.{write_answer, write_leaves};
ghost use Rattle.decimals.specs.Lists.{listed, item};

use arrayvec::ArrayString;
use faults::Refusal;
use itoa::Buffer;
use masks::has;
use memory::write;

// Adds one number to a list, behind a comma unless it is the first.
fn push_item(text: &mut ArrayString<96>, digits: &mut Buffer, n: u32)
    requires number { n < 100 }
    requires room { length text.old.bytes + 3 ≤ 96 }
    ensures item { text.new.bytes ≡ text.old.bytes ++ item (length text.old.bytes == 0) n }
    ensures bound { length text.new.bytes ≤ length text.old.bytes + 3 }
{
    if !text.is_empty() {
        text.push(',');
    }
    text.push_str(digits.format(n));
}

// The members of the set by rising number with commas: 32 numbers of two digits at most.
fn list(mask: u32) -> ArrayString<96>
    ensures { result.bytes ≡ listed (members mask 32) }
{
    let mut text = ArrayString::<96>::new();
    let mut digits = Buffer::new();
    for v in 0..32 {
        if has(mask, v) {
            push_item(&mut text, &mut digits, v as u32);
        }
    }
    text
}

// Writes the members of the set by rising number with commas from the place `at` on and
// answers the place behind them; where they do not fit, refuses by 5 and leaves the memory
// as it was.
pub fn write_set(out: &mut [u8], at: usize, mask: u32) -> Result<usize, Refusal>
    ensures answer { result ≡ write_answer out.old at (listed (members mask 32)) }
    ensures memory { out.new ≡ write_leaves out.old at (listed (members mask 32)) }
{
    write(out, at, list(mask).as_bytes())
}
