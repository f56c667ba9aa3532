// The report of one page as text, written into handed memory.
#![tactic(auto)]

pub mod entries;
pub mod lines;
pub mod report;

pub use report::write_report;
