// What the lines of a link file mean: the count of routers, the rule and the directions.
#![tactic(auto)]

pub mod direction;
pub mod read;

pub use direction::Direction;
pub use read::{next_direction, read_routers, read_rule};
