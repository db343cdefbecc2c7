//! Reads lines about documents from their bytes.

mod edit;
mod leaf;
mod line;
mod path;

pub use edit::read_edit_line;
pub use line::read_line;
