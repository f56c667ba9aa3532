// Areas: links and pages, and the calls on them.
#![tactic(auto)]

pub mod area;
pub mod calls;
mod checks;
pub mod links;
pub mod load;
pub mod walks;

pub use area::Area;
