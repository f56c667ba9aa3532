// What a refused call says: which refusal, in which layer, on which line of a file.
#![tactic(auto)]

pub mod fault;
pub mod refusal;

pub use fault::Fault;
pub use refusal::Refusal;
