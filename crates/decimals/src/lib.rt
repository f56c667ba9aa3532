// Decimal numbers read from a text, and numbers and sets of routers written into handed memory.
#![tactic(auto)]

pub mod read;
pub mod sets;
pub mod write;

pub use read::read_number;
pub use sets::write_set;
pub use write::write_number;
