// A waiting list: a binary heap in handed memory, which gives its lowest entry first.
#![tactic(auto)]

ghost use Rattle.waiting.specs.Runs.{LowestFirst};

pub mod calls;
mod list;
mod ranked;

pub use calls::{Answer, Call};
pub use list::Waiting;
pub use ranked::Ranked;

// Over every list of pushes and pops on an empty list, each pop answers the lowest of the
// entries that wait, and no entry is lost or made up.
#[tactic(auto, using(crate::proofs::RunFacts::lowest_first_lem))]
pub fn lowest_first<E: Ranked>()
    ensures { LowestFirst E.Ranked }
{}
