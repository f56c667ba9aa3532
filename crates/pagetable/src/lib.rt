// The pages of an area: what is worked out for each root, and which pages are current.
#![tactic(auto)]

pub mod page;
pub mod path;
pub mod table;
pub mod walk;

pub use page::Page;
pub use table::PageTable;
