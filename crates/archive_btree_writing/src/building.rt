//! Writing a packed search tree from entries that come one by one.
//!
//! The shape of a packed tree follows from the number of its entries, so that number is claimed before the first entry
//! comes. Each node is written as soon as its entries have come, after what is below its pointers, so that only the
//! nodes on one path from the root are kept at a time.

mod claimed;
mod nodes;
mod tree;

pub use nodes::NodeStep;
pub use tree::build_tree_each;
