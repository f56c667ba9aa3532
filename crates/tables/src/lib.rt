// Link tables: what a table of links means, whatever it is made of, and the two-way check.
#![tactic(auto)]

pub mod check;
pub mod table;
pub mod two_way;

pub use check::{check_making, check_pair};
pub use table::LinkTable;
pub use two_way::TwoWay;
