//! A node beside the wholes of its document, and the wholes.
use cabinet_text_nodes::Node;

/// A node beside the nodes that have the trees of its document's wholes, by their numbers.
#[derive(Clone, Copy)]
pub struct NodeIn<'a> {
    pub wholes: &'a [Node],
    pub node: &'a Node,
}

/// Archives nodes beside the wholes of their document.
#[derive(Clone, Copy)]
pub struct NodesIn<'a> {
    pub wholes: &'a [Node],
}
