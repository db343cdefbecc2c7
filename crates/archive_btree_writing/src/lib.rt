//! Writing the nodes of search trees: the data of their entries, and then the nodes themselves.
#![tactic(auto)]

mod building;

pub use building::{NodeStep, build_tree_each};

mod children;
mod entries;
mod laying;
mod nodes;
mod words;

pub use laying::{write_inner_each, write_leaf_each};
