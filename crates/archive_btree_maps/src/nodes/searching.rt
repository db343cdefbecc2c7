//! Reading search trees in bytes: the search for a key, and walks over all entries or those of a range.

mod node;
mod range;
mod search;
mod stepping;
mod walk;

pub use node::EntryAt;
pub use range::Range;
pub use search::{search_counted, search_tree};
pub use stepping::EntryWalk;
pub use walk::Walk;
