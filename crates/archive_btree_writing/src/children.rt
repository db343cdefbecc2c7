//! The nodes below an inner node.

/// The positions of the nodes below an inner node.
#[derive(Clone, Copy)]
pub struct Children<'a> {
    /// For each entry the position of the node before it, if there is one.
    pub lesser: &'a [Option<usize>],
    /// The position of the node after the last entry, if there is one.
    pub greater: Option<usize>,
}
