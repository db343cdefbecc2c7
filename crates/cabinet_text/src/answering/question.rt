//! Answers questions about documents.
ghost use Rattle.std.specs.Prelude.{◌≡◌, ◌-◌, ◌^◌, ◌<◌, ◌++◌, List, IfOk, codes};
ghost use Rattle.archive_shape_layout.specs.Writing.{Writes};
ghost use Rattle.cabinet_text_grammar.specs.Tree.{Tree};
ghost use Rattle.cabinet_text_grammar.specs.Answering as grammar;
ghost use Rattle.cabinet_text_grammar.specs.Answering.{spelled_answer, keys_of, keys_within};
ghost use Rattle.cabinet_text_nodes.specs.Answers.{Tells};
ghost use Rattle.cabinet_text_nodes.specs.Lines.{IsQuestion};
ghost use Rattle.cabinet_text_nodes.specs.View.{node_tree, line_of};

use crate::answering::keys::{write_kept_keys, write_keys, write_keys_within};
use archive_shape_layout::{Error, Writer};
use cabinet_text_nodes::{Asked, Document, Line, Node, answer_missing, answer_wrong, write_head};

/// Writes the head of a node.
fn answer_head<W: Writer>(node: &Node, writer: &mut W) -> Result<Asked, Error>
    requires { W.failures writer.old < 2 ^ 64 - 1 }
    ensures written { (table : List Tree) → Writes W.Writer writer.old writer.new
        (spelled_answer (grammar.head (grammar.head_of (node_tree table node.now)))) result }
    ensures asked { (table : List Tree) → IfOk result (λ asked. Tells asked
        (grammar.head (grammar.head_of (node_tree table node.now)))) }
{
    write_head(node.head(), writer)?;
    Ok(Asked::Answered)
}

/// Writes the keys of a node, or the answer that it has none in an order.
fn answer_keys<W: Writer>(node: &Node, writer: &mut W) -> Result<Asked, Error>
    requires { W.failures writer.old < 2 ^ 64 - 1 }
    ensures written { (table : List Tree) → Writes W.Writer writer.old writer.new
        (spelled_answer (keys_of (node_tree table node.now))) result }
    ensures asked { (table : List Tree) → IfOk result (λ asked. Tells asked
        (keys_of (node_tree table node.now))) }
{
    match node {
        Node::Ordered(map) => {
            write_keys(map, writer)?;
            Ok(Asked::Answered)
        }
        Node::Kept(pairs) => {
            write_kept_keys(pairs, writer)?;
            Ok(Asked::Answered)
        }
        _ => answer_wrong(writer),
    }
}

/// Writes the keys of an ordered map at or above the first bound and below the second. For each other node, writes the
/// answer that it has none in an order.
fn answer_range<W: Writer>(
    node: &Node,
    low: &str,
    high: &str,
    writer: &mut W,
) -> Result<Asked, Error>
    requires { W.failures writer.old < 2 ^ 64 - 1 }
    ensures written { (table : List Tree) → Writes W.Writer writer.old writer.new
        (spelled_answer (keys_within low.now high.now (node_tree table node.now))) result }
    ensures asked { (table : List Tree) → IfOk result (λ asked. Tells asked
        (keys_within low.now high.now (node_tree table node.now))) }
{
    match node {
        Node::Ordered(map) => {
            write_keys_within(map, low, high, writer)?;
            Ok(Asked::Answered)
        }
        _ => answer_wrong(writer),
    }
}

/// Writes the answer to a question. It allocates no memory.
pub fn answer<W: Writer>(document: &Document, line: &Line, writer: &mut W) -> Result<Asked, Error>
    requires question { IsQuestion (line_of line.now) }
    requires room { W.failures writer.old < 2 ^ 64 - 1 }
    ensures written { Writes W.Writer writer.old writer.new
        (spelled_answer (grammar.answer document.now (line_of line.now))) result }
    ensures asked { IfOk result (λ asked. Tells asked
        (grammar.answer document.now (line_of line.now))) }
{
    let path = match line {
        Line::Get(path) | Line::Keys(path) => path,
        Line::Range { path, .. } | Line::Set { path, .. } => path,
    };
    let Some(node) = document.node_at(path) else {
        return answer_missing(writer);
    };
    match line {
        Line::Keys(_) => answer_keys(node, writer),
        Line::Range { lo, hi, .. } => answer_range(node, lo.as_str(), hi.as_str(), writer),
        Line::Get(_) | Line::Set { .. } => answer_head(node, writer),
    }
}
