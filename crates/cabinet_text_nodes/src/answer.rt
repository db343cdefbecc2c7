//! The outcomes of questions and of edits.
/// The outcome of a question.
#[derive(Clone, Copy, Debug, PartialEq, Eq)]
pub enum Asked {
    /// The path leads to a node, and the answer has been written for it.
    Answered,
    /// The path leads nowhere.
    Missing,
    /// The path leads to a node that has no keys in an order.
    Wrong,
}

/// The outcome of an edit.
#[derive(Clone, Copy, Debug, PartialEq, Eq)]
pub enum EditAnswer {
    /// The document is edited.
    Done,
    /// The path leads nowhere, or nothing can be put or inserted there.
    Missing,
    /// A leaf that was to be set does not fit the node there, something in a whole was to be edited, a whole would be lost, the
    /// root was to be removed, or more than 64 containers would lie in one another.
    Refused,
}
