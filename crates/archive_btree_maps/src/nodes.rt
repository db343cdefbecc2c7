//! The nodes of search trees: the layout of their bytes, their check, the search for a key, and walks over the entries.

mod checking;
mod searching;

pub use checking::check_btree_each;
pub use searching::{EntryAt, EntryWalk, Range, Walk, search_counted, search_tree};

mod layout;

pub use layout::{NO_CHILD, NodeLayout};
