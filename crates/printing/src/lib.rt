// What the program `pages` prints of its input: the reports of all routers, or a fault.
#![tactic(auto)]

pub mod fault_lines;
pub mod head;
pub mod output;
pub mod reporting;
pub mod rooms;

pub use output::{LONGEST_INPUT, print_pages};
