// The lines of a link file: a reader that walks over the lent text and copies none of it.
#![tactic(auto)]

pub mod keys;
pub mod line;
pub mod next_line;
pub mod reader;
pub mod standing;

pub use keys::{bad_line, same};
pub use line::{Key, Line};
pub use reader::Reader;
