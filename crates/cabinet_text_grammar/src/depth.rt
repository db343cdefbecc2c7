//! How deep the containers of a document may be nested.

/// The largest number of options, lists and maps that may be nested in one another.
pub const MAX_DEPTH: usize = 64;
