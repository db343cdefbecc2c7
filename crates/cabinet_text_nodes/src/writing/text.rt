//! Writes texts of documents: the lines of the wholes, and after them those of the root.
ghost use Rattle.std.specs.Prelude.{◌≡◌, ◌-◌, ◌^◌, ◌<◌, IfOk};
ghost use Rattle.archive_shape_layout.specs.Writing.{Writes};
ghost use Rattle.cabinet_text_grammar.specs.Item.{header};
ghost use Rattle.cabinet_text_grammar.specs.Spelling.{lines_of, ended, text_of};
ghost use Rattle.cabinet_text_nodes.specs.Calls.{WritesNode, WritesNodes, WritesPair, WritesPairs, WritesWholes};

use crate::document::Document;
use crate::node::Node;
use crate::writing::head::{write_head, write_key_line, write_whole_line, write_wholes_line};
use archive_shape_layout::{Error, Writer};
use std::collections::BTreeMap;

/// Writes the lines of a node. A whole has only the line of its number.
#[cycle(nodes)]
pub fn write_node<W: Writer>(node: &Node, writer: &mut W) -> Result<(), Error>
    requires { W.failures writer.old < 2 ^ 64 - 1 }
    ensures quiet { IfOk result (λ _. W.failures writer.new ≡ W.failures writer.old) }
    ensures lines { WritesNode W.Writer writer.old writer.new node.now result }
{
    if let Node::Whole(number) = node {
        return write_whole_line(*number, writer);
    }
    write_head(node.head(), writer)?;
    match node {
        Node::Maybe(inside) => match inside {
            Some(inner) => write_node(inner, writer),
            None => Ok(()),
        },
        Node::List(nodes) => write_nodes(nodes.as_slice(), writer),
        Node::Ordered(pairs) | Node::Hashed(pairs) => write_map(pairs, writer),
        Node::Kept(pairs) => write_pairs(pairs.as_slice(), writer),
        _ => Ok(()),
    }
}

/// Writes the lines of several nodes.
#[cycle(nodes)]
fn write_nodes<W: Writer>(nodes: &[Node], writer: &mut W) -> Result<(), Error>
    requires { W.failures writer.old < 2 ^ 64 - 1 }
    ensures quiet { IfOk result (λ _. W.failures writer.new ≡ W.failures writer.old) }
    ensures lines { WritesNodes W.Writer writer.old writer.new nodes.now result }
{
    for node in nodes {
        write_node(node, writer)?;
    }
    Ok(())
}

/// Writes the lines of a pair of a map.
#[cycle(nodes)]
fn write_pair<W: Writer>(key: &str, value: &Node, writer: &mut W) -> Result<(), Error>
    requires { W.failures writer.old < 2 ^ 64 - 1 }
    ensures quiet { IfOk result (λ _. W.failures writer.new ≡ W.failures writer.old) }
    ensures lines { WritesPair W.Writer writer.old writer.new key.now value.now result }
{
    write_key_line(key, writer)?;
    write_node(value, writer)
}

/// Writes the lines of the pairs of an ordered or a hashed map, by ascending keys.
#[cycle(nodes)]
fn write_map<W: Writer>(pairs: &BTreeMap<String, Node>, writer: &mut W) -> Result<(), Error>
    requires { W.failures writer.old < 2 ^ 64 - 1 }
    ensures quiet { IfOk result (λ _. W.failures writer.new ≡ W.failures writer.old) }
    ensures lines { WritesPairs W.Writer writer.old writer.new pairs.now.entries result }
{
    for (key, node) in pairs {
        write_pair(key.as_str(), node, writer)?;
    }
    Ok(())
}

/// Writes the lines of the pairs of a kept map, in its order.
#[cycle(nodes)]
fn write_pairs<W: Writer>(pairs: &[(String, Node)], writer: &mut W) -> Result<(), Error>
    requires { W.failures writer.old < 2 ^ 64 - 1 }
    ensures quiet { IfOk result (λ _. W.failures writer.new ≡ W.failures writer.old) }
    ensures lines { WritesPairs W.Writer writer.old writer.new pairs.now result }
{
    for (key, node) in pairs {
        write_pair(key.as_str(), node, writer)?;
    }
    Ok(())
}

/// Writes the line that tells the number of wholes, if there are any.
fn write_header<W: Writer>(count: u64, writer: &mut W) -> Result<(), Error>
    requires { W.failures writer.old < 2 ^ 64 - 1 }
    ensures { Writes W.Writer writer.old writer.new (ended (lines_of (header count))) result }
{
    match count {
        0 => Ok(()),
        _ => write_wholes_line(count, writer),
    }
}

/// Writes the lines of the trees of the wholes, by ascending numbers.
fn write_wholes<W: Writer>(wholes: &[Node], writer: &mut W) -> Result<(), Error>
    requires { W.failures writer.old < 2 ^ 64 - 1 }
    ensures { WritesWholes W.Writer writer.old writer.new wholes.now result }
{
    write_nodes(wholes, writer)
}

/// Writes the text of a document. It allocates no memory.
pub fn write_text<W: Writer>(document: &Document, writer: &mut W) -> Result<(), Error>
    requires { W.failures writer.old < 2 ^ 64 - 1 }
    ensures { Writes W.Writer writer.old writer.new (text_of document.now) result }
{
    let wholes = document.wholes();
    let root = document.root();
    write_header(wholes.len() as u64, writer)?;
    write_wholes(wholes, writer)?;
    write_node(root, writer)
}
