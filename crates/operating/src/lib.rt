// Lists of calls on an area, made one after another.
#![tactic(auto)]

pub mod calls;
pub mod making;
pub mod memories;

pub use calls::{Answer, Call};
pub use making::operate;
pub use memories::Memories;
