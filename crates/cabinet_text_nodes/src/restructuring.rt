//! Edits of documents that add, replace and remove nodes.
mod inserting;
mod putting;
mod removing;
mod replacing;
mod walking;

pub(crate) use walking::{Edit, edit_at, replace_root};
