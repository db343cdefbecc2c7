//! Reads bytes as a line of a session in which documents grow.
ghost use Rattle.std.specs.Prelude.{◌≡◌, [], Some, IsUtf8, IfOk, IfErr};
ghost use Rattle.std.specs.Rc.{rc_str_bytes};
ghost use Rattle.cabinet_text_grammar.specs.Answering.{head_of};
ghost use Rattle.cabinet_text_grammar.specs.EditLine.{IsAlone, SaysEdit};
ghost use Rattle.cabinet_text_grammar.specs.Spelling.{escaped, spelled};
ghost use Rattle.cabinet_text_grammar.specs.Tree as tree;
ghost use Rattle.cabinet_text_nodes.specs.View.{edit_line_of, leaf_of, node_tree, path_of};
ghost use Rattle.cabinet_text_reading.specs.Added.{RefusesNode, RefusesAdded, RefusesSharedText, SpellsAdded};
ghost use Rattle.cabinet_text_reading.specs.Reading.{RefusesEditLine};

use crate::lines::leaf::{read_argument, read_leaf, split_head};
use crate::lines::line::read_line;
use crate::lines::path::{is_path, read_path};
use cabinet_text_bytes::after_prefix;
use cabinet_text_nodes::{EditLine, Leaf, LineRefusal, Node, Step};
use std::alloc::Global;
use std::collections::BTreeMap;
use std::rc::RcStr;

/// Reads the shared text that bytes are the escaped form of.
fn read_shared(alloc: Global, argument: &[u8]) -> Result<RcStr, LineRefusal>
    ensures text { IfOk result (λ t. IsUtf8 (rc_str_bytes t)) }
    ensures escaped { IfOk result (λ t. argument.now ≡ escaped (rc_str_bytes t)) }
    ensures refused { IfErr result (RefusesSharedText argument.now) }
{
    let text = match read_argument(alloc, argument) {
        Ok(text) => text,
        Err(refusal) => return Err(refusal),
    };
    match RcStr::from_str(alloc, text.as_str()) {
        Ok(shared) => Ok(shared),
        Err(_) => Err(LineRefusal::OutOfMemory),
    }
}

/// Returns the node that is a leaf.
fn leaf_node(leaf: Leaf) -> Node
    ensures { node_tree [] result ≡ tree.leaf (leaf_of leaf) }
{
    match leaf {
        Leaf::Bool(value) => Node::Bool(value),
        Leaf::Int(number) => Node::Int(number),
        Leaf::Text(text) => Node::Text(text),
    }
}

/// Reads bytes as the head of a leaf, of a shared text or of a container without nodes. Only a text allocates memory.
fn read_node(alloc: Global, bytes: &[u8]) -> Result<Node, LineRefusal>
    ensures alone { IfOk result (λ node. IsAlone (node_tree [] node)) }
    ensures spelled { IfOk result (λ node. bytes.now ≡ spelled (head_of (node_tree [] node))) }
    ensures refused { IfErr result (RefusesNode bytes.now) }
{
    if let Some(argument) = after_prefix(bytes, b"shared '".as_slice()) {
        return match read_shared(alloc, argument) {
            Ok(text) => Ok(Node::Shared(text)),
            Err(refusal) => Err(refusal),
        };
    }
    if bytes == b"none".as_slice() {
        return Ok(Node::Maybe(None));
    }
    if bytes == b"list 0".as_slice() {
        return Ok(Node::List(Vec::new(alloc)));
    }
    if bytes == b"ordered 0".as_slice() {
        return Ok(Node::Ordered(BTreeMap::new(alloc)));
    }
    if bytes == b"hashed 0".as_slice() {
        return Ok(Node::Hashed(BTreeMap::new(alloc)));
    }
    if bytes == b"kept 0".as_slice() {
        return Ok(Node::Kept(Vec::new(alloc)));
    }
    match read_leaf(alloc, bytes) {
        Ok(leaf) => Ok(leaf_node(leaf)),
        Err(refusal) => Err(refusal),
    }
}

/// Reads the path and the node of a line from the bytes after `put ` or `insert `, in which the node's head is first.
fn read_added(alloc: Global, bytes: &[u8]) -> Result<(Vec<Step>, Node), LineRefusal>
    ensures said { IfOk result (λ added. SpellsAdded bytes.now (path_of added.0.items) (node_tree [] added.1)) }
    ensures refused { IfErr result (RefusesAdded bytes.now) }
{
    let (head, path) = split_head(bytes);
    let node = match read_node(alloc, head) {
        Ok(node) => node,
        Err(LineRefusal::Bad) => return Err(LineRefusal::Bad),
        Err(LineRefusal::OutOfMemory) => {
            if is_path(path) {
                return Err(LineRefusal::OutOfMemory);
            }
            return Err(LineRefusal::Bad);
        }
    };
    match read_path(alloc, path) {
        Ok(path) => Ok((path, node)),
        Err(refusal) => Err(refusal),
    }
}

/// Reads bytes as a line of a session in which documents grow. Memory is allocated only for its steps and texts. Where it
/// is refused, what is left of the line is checked, so that bytes which are no line are `Bad`.
pub fn read_edit_line(alloc: Global, bytes: &[u8]) -> Result<EditLine, LineRefusal>
    ensures said { IfOk result (λ line. SaysEdit bytes.now (Some (edit_line_of line))) }
    ensures refused { IfErr result (RefusesEditLine bytes.now) }
{
    if let Some(added) = after_prefix(bytes, b"put ".as_slice()) {
        return match read_added(alloc, added) {
            Ok((path, node)) => Ok(EditLine::Put { path, node }),
            Err(refusal) => Err(refusal),
        };
    }
    if let Some(added) = after_prefix(bytes, b"insert ".as_slice()) {
        return match read_added(alloc, added) {
            Ok((path, node)) => Ok(EditLine::Insert { path, node }),
            Err(refusal) => Err(refusal),
        };
    }
    if let Some(path) = after_prefix(bytes, b"remove".as_slice()) {
        return match read_path(alloc, path) {
            Ok(path) => Ok(EditLine::Remove(path)),
            Err(refusal) => Err(refusal),
        };
    }
    match read_line(alloc, bytes) {
        Ok(line) => Ok(EditLine::About(line)),
        Err(refusal) => Err(refusal),
    }
}
