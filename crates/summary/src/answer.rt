ghost use Rattle.std.specs.Prelude.{◌≡◌, IfOk, string_bytes};
ghost use Rattle.summary.specs.Printed.{length_checked, judged, printed};

use crate::outcome::Summary;
use crate::whole::summarize;
use faults::{Fault, Refusal};
use std::alloc::{AllocError, Global};

// The most bytes that the program reads.
pub const LONGEST_INPUT: usize = 32768;

// An input that is too long is refused by 5.
pub fn check_length(input: &[u8]) -> Result<(), Fault>
    ensures { result ≡ length_checked input.now }
{
    if input.len() > LONGEST_INPUT {
        return Err(Fault::Area {
            refusal: Refusal::MemoryTooShort,
            line: 0,
        });
    }
    Ok(())
}

// The summary of an input, which is refused by 5 where it is too long.
pub fn judge(input: &[u8]) -> Result<Summary, Fault>
    ensures { result ≡ judged input.now }
{
    check_length(input)?;
    summarize(input)
}

// The lines that the program prints of its input.
pub fn tell(heap: Global, input: &[u8]) -> Result<String, AllocError>
    ensures { IfOk result (λ text. string_bytes text ≡ printed (judged input.now)) }
{
    match judge(input) {
        Ok(summary) => summary.to_string(heap),
        Err(fault) => fault.to_string(heap),
    }
}
