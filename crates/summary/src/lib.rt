// What the program `pages` tells of a link file: its count of routers, its rule and how many
// directions it has, or the fault that ends it.
#![tactic(auto)]

pub mod answer;
pub mod names;
pub mod outcome;
pub mod whole;

pub use answer::{LONGEST_INPUT, check_length, judge, tell};
pub use names::RuleName;
pub use outcome::Summary;
pub use whole::summarize;
