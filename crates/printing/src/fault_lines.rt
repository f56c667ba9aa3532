ghost use Rattle.std.specs.Prelude.{◌≡◌, IfOk};
ghost use Rattle.faults.specs.Faults.{fault_text};

use faults::Fault;
use std::alloc::{AllocError, Global};

// The two lines of a fault: the number of its refusal, and its line.
pub(crate) fn tell_fault(heap: Global, fault: Fault) -> Result<Vec<u8>, AllocError>
    ensures { IfOk result (λ bytes. bytes.items ≡ fault_text fault) }
{
    Ok(fault.to_string(heap)?.into_bytes())
}
