//! Checks whether a root and the nodes of its wholes are a document.
ghost use Rattle.std.specs.Prelude.{◌<◌, length, IfOk, IfErr};
ghost use Rattle.cabinet_text_nodes.specs.Calls.{FindsTwice, ChecksTable};
ghost use Rattle.cabinet_text_nodes.specs.Faults.{TableFault};

use crate::depth::depth_of;
use crate::fault::{fault_of, worse};
use crate::node::Node;
use crate::order::are_in_order;
use crate::refusal::DocumentRefusal;
use crate::writing::write_node;
use archive_shape_layout::Error;
use cabinet_text_grammar::MAX_DEPTH;
use std::alloc::{AllocError, Global};
use std::collections::BTreeSet;

/// Returns the fault of a root and of the nodes of its wholes, each of which lies inside a whole.
fn fault_of_table(
    alloc: Global,
    wholes: &[Node],
    root: &Node,
) -> Result<Option<DocumentRefusal>, AllocError>
    ensures fault { IfOk result (λ fault. TableFault wholes.now root.now fault) }
    ensures memory { IfErr result (λ _. 0 < length wholes.now) }
{
    let mut depths = Vec::new(alloc);
    let mut fault = None;
    for node in wholes {
        let depth = depth_of(node, depths.as_slice());
        fault = worse(fault_of(node, depths.as_slice(), MAX_DEPTH - 1), fault);
        depths.push(depth)?;
    }
    Ok(worse(fault_of(root, depths.as_slice(), MAX_DEPTH), fault))
}

/// Returns whether two of the nodes have the same tree. Equal trees have equal texts, which are looked up in a set: the
/// time grows with the size of the texts and the logarithm of their number.
fn repeats_whole(alloc: Global, wholes: &[Node]) -> Result<bool, Error>
    ensures repeats { FindsTwice wholes.now result }
    ensures memory { IfErr result (λ _. 0 < length wholes.now) }
{
    let mut texts = BTreeSet::new(alloc);
    for node in wholes {
        let mut text = Vec::new(alloc);
        write_node(node, &mut text)?;
        let is_new = texts.insert(text)?;
        if !is_new {
            return Ok(true);
        }
    }
    Ok(false)
}

/// Returns the reason for which a root and the nodes of its wholes are no document, if there is one.
pub(crate) fn refusal_of(wholes: &Vec<Node>, root: &Node) -> Option<DocumentRefusal>
    ensures { ChecksTable wholes.now.items root.now result }
{
    let alloc = *wholes.allocator();
    match fault_of_table(alloc, wholes.as_slice(), root) {
        Ok(None) => {}
        Ok(Some(fault)) => return Some(fault),
        Err(_) => return Some(DocumentRefusal::OutOfMemory),
    }
    match repeats_whole(alloc, wholes.as_slice()) {
        Ok(false) if are_in_order(wholes.as_slice(), root) => None,
        Ok(false) => Some(DocumentRefusal::WholeOrder),
        Ok(true) => Some(DocumentRefusal::RepeatedWhole),
        Err(_) => Some(DocumentRefusal::OutOfMemory),
    }
}
