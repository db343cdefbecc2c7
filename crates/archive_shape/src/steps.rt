//! The number of steps that a search takes.

/// The number of steps that a search took: of keys that were compared, and of groups of a table that were examined.
#[derive(Clone, Copy, Debug, PartialEq, Eq)]
pub struct Steps {
    /// Keys that were compared.
    pub comparisons: usize,
    /// Groups of a table that were examined.
    pub strides: usize,
}
