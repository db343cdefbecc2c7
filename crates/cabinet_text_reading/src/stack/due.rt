//! The kind of line that is expected where containers are open.
use crate::stack::frame::OpenMap;
use cabinet_text_nodes::Node;

/// The kind of line that is expected.
#[derive(Drop)]
pub enum Due<'a> {
    /// A node's head, for the innermost container or as the root.
    Head,
    /// A key of this map, which lies in the innermost container of the stack.
    Key(OpenMap<'a>),
}

/// The result of taking in a node's head.
#[derive(Drop)]
pub enum Next<'a> {
    /// Another line is expected.
    Due(Due<'a>),
    /// The document is complete, and this is its root.
    Done(Node),
}
