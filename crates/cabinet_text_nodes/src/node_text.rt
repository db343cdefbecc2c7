//! Texts of nodes without copies of their shared texts, by which equal nodes are found.
ghost use Rattle.std.specs.Prelude.{IfOk};
ghost use Rattle.cabinet_text_nodes.specs.NodeTexts.{AddsHead, AddsNode, AddsNodes, AddsPair, AddsPairs, IsTextOf};

use crate::head::HeadRef;
use crate::node::Node;
use crate::writing::{write_head, write_key_line, write_whole_line};
use archive_shape_layout::Error;
use std::alloc::Global;
use std::collections::BTreeMap;
use std::rc::RcStr;

/// The text of a node in two parts: its lines, in which each shared text is empty, and the shared texts in the order of
/// their lines. Nodes of one document with the same parts are equal. A shared text is kept as a pointer, so that the
/// memory is in proportion to the node, however long its shared texts are.
#[derive(PartialEq, Eq, PartialOrd, Ord, Drop)]
pub struct NodeText {
    lines: Vec<u8>,
    shared: Vec<RcStr>,
}

impl NodeText {
    /// Returns the text of a node.
    pub fn new(alloc: Global, node: &Node) -> Result<NodeText, Error>
        ensures { IfOk result (λ text. IsTextOf text node.now) }
    {
        let mut text = NodeText {
            lines: Vec::new(alloc),
            shared: Vec::new(alloc),
        };
        text.add_node(node)?;
        Ok(text)
    }

    /// Adds the line of a node's head.
    fn add_head(&mut self, node: &Node) -> Result<(), Error>
        ensures { AddsHead self.old self.new node.now result }
    {
        let Node::Shared(text) = node else {
            return write_head(node.head(), &mut self.lines);
        };
        self.shared.push(text.clone()?)?;
        write_head(HeadRef::Shared(""), &mut self.lines)
    }

    /// Adds the lines of a node. A whole has only the line of its number.
    #[cycle(texts)]
    fn add_node(&mut self, node: &Node) -> Result<(), Error>
        ensures { AddsNode self.old self.new node.now result }
    {
        if let Node::Whole(number) = node {
            return write_whole_line(*number, &mut self.lines);
        }
        self.add_head(node)?;
        match node {
            Node::Maybe(inside) => match inside {
                Some(inner) => self.add_node(inner),
                None => Ok(()),
            },
            Node::List(nodes) => self.add_nodes(nodes.as_slice()),
            Node::Ordered(pairs) | Node::Hashed(pairs) => self.add_map(pairs),
            Node::Kept(pairs) => self.add_pairs(pairs.as_slice()),
            _ => Ok(()),
        }
    }

    /// Adds the lines of several nodes.
    #[cycle(texts)]
    fn add_nodes(&mut self, nodes: &[Node]) -> Result<(), Error>
        ensures { AddsNodes self.old self.new nodes.now result }
    {
        for node in nodes {
            self.add_node(node)?;
        }
        Ok(())
    }

    /// Adds the lines of a pair of a map.
    #[cycle(texts)]
    fn add_pair(&mut self, key: &str, value: &Node) -> Result<(), Error>
        ensures { AddsPair self.old self.new key.now value.now result }
    {
        write_key_line(key, &mut self.lines)?;
        self.add_node(value)
    }

    /// Adds the lines of the pairs of an ordered or a hashed map, by ascending keys.
    #[cycle(texts)]
    fn add_map(&mut self, pairs: &BTreeMap<String, Node>) -> Result<(), Error>
        ensures { AddsPairs self.old self.new pairs.now.entries result }
    {
        for (key, node) in pairs {
            self.add_pair(key.as_str(), node)?;
        }
        Ok(())
    }

    /// Adds the lines of the pairs of a kept map, in its order.
    #[cycle(texts)]
    fn add_pairs(&mut self, pairs: &[(String, Node)]) -> Result<(), Error>
        ensures { AddsPairs self.old self.new pairs.now result }
    {
        for (key, node) in pairs {
            self.add_pair(key.as_str(), node)?;
        }
        Ok(())
    }
}
