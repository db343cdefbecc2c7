//! The head of a node: the first line of its text.
ghost use Rattle.std.specs.Prelude.{◌≡◌, List};
ghost use Rattle.cabinet_text_grammar.specs.Answering.{head_of};
ghost use Rattle.cabinet_text_grammar.specs.Tree.{Tree};
ghost use Rattle.cabinet_text_nodes.specs.View.{node_tree, lent_item};

use crate::leaf::{Leaf, LeafRef};
use crate::node::Node;
use std::rc::RcStr;

/// The head of a node. Lists and maps have the number of elements or pairs that it states.
#[derive(Debug, Drop)]
pub enum Head {
    Leaf(Leaf),
    Shared(RcStr),
    None,
    Some,
    List(u64),
    Ordered(u64),
    Hashed(u64),
    Kept(u64),
    /// A whole, by its number.
    Whole(u64),
}

/// A head whose text is borrowed, from a node or from the bytes of an archive.
#[derive(Clone, Copy, Debug)]
pub enum HeadRef<'a> {
    Leaf(LeafRef<'a>),
    Shared(&'a str),
    None,
    Some,
    List(u64),
    Ordered(u64),
    Hashed(u64),
    Kept(u64),
    /// A whole. Answers leave out its number.
    Whole,
}

impl Node {
    /// Returns the head of the node, which is the first line of its text but for the number of a whole.
    pub fn head(&self) -> HeadRef<'_>
        ensures { (table : List Tree) → lent_item result ≡ head_of (node_tree table self.now) }
    {
        match self {
            Node::Bool(value) => HeadRef::Leaf(LeafRef::Bool(*value)),
            Node::Int(number) => HeadRef::Leaf(LeafRef::Int(*number)),
            Node::Text(text) => HeadRef::Leaf(LeafRef::Text(text.as_str())),
            Node::Shared(text) => HeadRef::Shared(text.as_str()),
            Node::Maybe(None) => HeadRef::None,
            Node::Maybe(Some(_)) => HeadRef::Some,
            Node::List(nodes) => HeadRef::List(nodes.len() as u64),
            Node::Ordered(pairs) => HeadRef::Ordered(pairs.len() as u64),
            Node::Hashed(pairs) => HeadRef::Hashed(pairs.len() as u64),
            Node::Kept(pairs) => HeadRef::Kept(pairs.len() as u64),
            Node::Whole(_) => HeadRef::Whole,
        }
    }
}
