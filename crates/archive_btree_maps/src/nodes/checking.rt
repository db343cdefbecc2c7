//! The check of search trees.
//!
//! A map is checked node by node, with a step for its keys and one for its values. A step is a closure that checks one
//! key or one value at a position. What a step has to guarantee is defined in archive_shape's specs/Steps.

mod claim;
mod entries;
mod maps;
mod nodes;

pub use maps::check_btree_each;
