// What tables are refused for, whatever they are made of.
ghost use Rattle.std.specs.Prelude.{◌≡◌};
ghost use Rattle.faults.specs.Calls.{in_table, done};
ghost use Rattle.tables.specs.Tables.{checked, pair_refusal};
ghost use Rattle.tables.specs.Makings.{making_refusal};

use faults::{Fault, Refusal};

// Whether a table of so many routers can be made of so much memory, where it needs so much.
pub fn check_making(count: usize, memory: usize, needed: usize) -> Result<(), Fault>
    ensures { result ≡ done (in_table (making_refusal count memory needed)) }
{
    if count < 2 || count > 32 {
        return Err(Fault::of_table(Refusal::BadCount));
    }
    if memory < needed {
        return Err(Fault::of_table(Refusal::MemoryTooShort));
    }
    Ok(())
}

// Whether these are two different routers of so many.
pub fn check_pair(count: usize, from: usize, to: usize) -> Result<(), Refusal>
    ensures { result ≡ checked (pair_refusal count from to) }
{
    if from >= count || to >= count {
        return Err(Refusal::NoSuchRouter);
    }
    if from == to {
        return Err(Refusal::SameRouter);
    }
    Ok(())
}
