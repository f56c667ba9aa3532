// The costs of the links between routers, as a search and its passes read them, and what a search from one router finds.
#![tactic(auto)]

pub mod cost_square;
pub mod found;
pub mod link_costs;
pub mod number_square;
pub mod sequence;

pub use cost_square::CostSquare;
pub use found::Found;
pub use link_costs::LinkCosts;
pub use number_square::NumberSquare;
pub use sequence::Sequence;
