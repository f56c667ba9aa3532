// A plain link table over a list of records that the caller hands in.
#![tactic(auto)]

pub mod record;
pub mod records;

pub use record::Record;
pub use records::Records;
