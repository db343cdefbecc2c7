//! Open containers, which lack some of their nodes.
use crate::stack::keyed::Keyed;
use crate::stack::pairs::Pairs;
use cabinet_text_nodes::Node;

/// A container that expects a node. In a stack of containers that lie in one another the innermost is last.
#[derive(Drop)]
pub enum Frame<'a> {
    /// An option.
    Maybe,
    /// A list of `count` elements, and its elements up to now.
    List { count: u64, nodes: Vec<Node> },
    /// A map of `count` pairs, its pairs up to now, and the key of the next pair.
    Value { count: u64, pairs: Keyed<'a> },
}

/// A map of `count` pairs that expects a key, and its pairs up to now.
#[derive(Drop)]
pub struct OpenMap<'a> {
    pub count: u64,
    pub pairs: Pairs<'a>,
}
