//! The nodes of documents and their kinds.
ghost use Rattle.std.specs.Prelude.{◌≡◌, List};
ghost use Rattle.cabinet_text_grammar.specs.Tree.{Tree};
ghost use Rattle.cabinet_text_nodes.specs.Calls.{GivesLeaf};
ghost use Rattle.cabinet_text_nodes.specs.View.{node_tree};
ghost use Rattle.cabinet_text_nodes.specs.Kinds.{kind_of};

use crate::leaf::LeafRef;
use std::collections::BTreeMap;
use std::rc::RcStr;

/// A node of a document, which owns the nodes inside it.
#[derive(Debug, Drop)]
pub enum Node {
    Bool(bool),
    Int(i64),
    Text(String),
    /// A text that may be shared by several pointers of an archive.
    Shared(RcStr),
    Maybe(Option<Box<Node>>),
    List(Vec<Node>),
    Ordered(BTreeMap<String, Node>),
    Hashed(BTreeMap<String, Node>),
    /// A map that keeps the order of its pairs; its keys are distinct.
    Kept(Vec<(String, Node)>),
    /// A whole, by the number of its tree in the document's table. Many nodes may have one number.
    Whole(u64),
}

/// The kinds of nodes, one for each variant of `Node`.
#[derive(Clone, Copy, Debug, PartialEq, Eq)]
pub enum Kind {
    Bool,
    Int,
    Text,
    Shared,
    Maybe,
    List,
    Ordered,
    Hashed,
    Kept,
    Whole,
}

impl Node {
    /// Returns the kind of the node.
    pub fn kind(&self) -> Kind
        ensures { (table : List Tree) → result ≡ kind_of (node_tree table self.now) }
    {
        match self {
            Node::Bool(_) => Kind::Bool,
            Node::Int(_) => Kind::Int,
            Node::Text(_) => Kind::Text,
            Node::Shared(_) => Kind::Shared,
            Node::Maybe(_) => Kind::Maybe,
            Node::List(_) => Kind::List,
            Node::Ordered(_) => Kind::Ordered,
            Node::Hashed(_) => Kind::Hashed,
            Node::Kept(_) => Kind::Kept,
            Node::Whole(_) => Kind::Whole,
        }
    }

    /// Returns the leaf that the node is, if it is one.
    pub fn as_leaf(&self) -> Option<LeafRef<'_>>
        ensures { GivesLeaf self.now result }
    {
        match self {
            Node::Bool(value) => Some(LeafRef::Bool(*value)),
            Node::Int(number) => Some(LeafRef::Int(*number)),
            Node::Text(text) => Some(LeafRef::Text(text.as_str())),
            _ => None,
        }
    }
}
