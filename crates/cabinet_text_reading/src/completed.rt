//! What is asked of the line that completes a tree, before memory is taken for it.
ghost use Rattle.std.specs.Prelude.{map};
ghost use Rattle.cabinet_text_nodes.specs.Order.{WalksNodes};
ghost use Rattle.cabinet_text_reading.specs.Calls.Wholes.{TellsRootOrder, ChecksTree};
ghost use Rattle.cabinet_text_reading.specs.View.{keyed_entries};
ghost use Rattle.cabinet_text_reading.specs.Wholes.{WalksFrame, WalksStack, WalksRoot};

use crate::stack::{Frame, Keyed};
use crate::wholes::Wholes;
use cabinet_text_grammar::Cause;
use cabinet_text_nodes::{Node, walk_node, walk_nodes, walk_pairs};

/// Walks the nodes of a map's pairs before a key.
fn walk_keyed(keyed: &Keyed<'_>, wholes: &[Node], next: u64) -> Option<u64>
    ensures { WalksNodes wholes.now (map (λ p. p.1) (keyed_entries keyed.now)) next result }
{
    match keyed {
        Keyed::Ordered(keyed) => keyed.walk(wholes, next),
        Keyed::Hashed(keyed) => keyed.walk(wholes, next),
        Keyed::Kept(kept) => walk_pairs(kept.pairs(), wholes, next),
    }
}

/// Walks the nodes that an open container has up to now.
fn walk_frame(frame: &Frame<'_>, wholes: &[Node], next: u64) -> Option<u64>
    ensures { WalksFrame wholes.now frame.now next result }
{
    match frame {
        Frame::Maybe => Some(next),
        Frame::List { count: _, nodes } => walk_nodes(nodes, wholes, next),
        Frame::Value { count: _, pairs } => walk_keyed(pairs, wholes, next),
    }
}

/// Walks the nodes of all open containers.
fn walk_stack(stack: &[Frame<'_>], wholes: &[Node]) -> Option<u64>
    ensures { WalksStack wholes.now stack.now result }
{
    let mut next = 0;
    for frame in stack {
        next = walk_frame(frame, wholes, next)?;
    }
    Some(next)
}

/// Walks a root, which is that of the containers of `stack`, completed by a node: the whole of this number, or a node
/// without wholes.
fn walk_root(stack: &[Frame<'_>], wholes: &[Node], number: Option<u64>) -> Option<u64>
    ensures { WalksRoot wholes.now stack.now number result }
{
    let next = walk_stack(stack, wholes)?;
    match number {
        Some(number) => walk_node(&Node::Whole(number), wholes, next),
        None => Some(next),
    }
}

/// Returns whether the wholes of a root are those of `wholes`, in their order. The root is that of the containers of
/// `stack`, completed by a node: the whole of this number, or a node without wholes. Where there are no wholes no node is
/// visited.
fn completes_in_order(wholes: &[Node], stack: &[Frame<'_>], number: Option<u64>) -> bool
    ensures { TellsRootOrder wholes.now stack.now number result }
{
    if wholes.is_empty() && number.is_none() {
        return true;
    }
    match walk_root(stack, wholes, number) {
        Some(complete) => complete == wholes.len() as u64,
        None => false,
    }
}

/// Checks the tree that a line completes: that of a whole is that of no whole before it, and the wholes of the root are
/// those that were read, in their order. `lines` are the lines of the tree up to this one.
pub(crate) fn check_tree(
    wholes: &Wholes<'_>,
    stack: &[Frame<'_>],
    number: Option<u64>,
    lines: &[u8],
) -> Result<(), Cause>
    ensures { ChecksTree wholes.now stack.now number lines.now result }
{
    if wholes.lacking > 0 {
        if wholes.is_new(lines) {
            Ok(())
        } else {
            Err(Cause::RepeatedWhole)
        }
    } else if completes_in_order(wholes.entries.as_slice(), stack, number) {
        Ok(())
    } else {
        Err(Cause::WholeOrder)
    }
}
