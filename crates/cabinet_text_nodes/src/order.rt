//! Checks whether the wholes of a table are those of a root, in their order.
ghost use Rattle.std.specs.Prelude.{map};
ghost use Rattle.cabinet_text_nodes.specs.Calls.{TellsOrder};
ghost use Rattle.cabinet_text_nodes.specs.Order.{WalksNode, WalksNodes};
ghost use Rattle.cabinet_text_nodes.specs.declared.node.Node.TheVariants as node_of;

use crate::node::Node;
use std::collections::BTreeMap;

/// Walks several nodes.
#[cycle(order)]
pub fn walk_nodes(nodes: &[Node], wholes: &[Node], next: u64) -> Option<u64>
    ensures { WalksNodes wholes.now nodes.now next result }
{
    let mut complete = next;
    for node in nodes {
        complete = walk_node(node, wholes, complete)?;
    }
    Some(complete)
}

/// Walks the nodes of pairs.
#[cycle(order)]
pub fn walk_pairs(pairs: &[(String, Node)], wholes: &[Node], next: u64) -> Option<u64>
    ensures { WalksNodes wholes.now (map (λ p. p.1) pairs.now) next result }
{
    let mut complete = next;
    for (_, node) in pairs {
        complete = walk_node(node, wholes, complete)?;
    }
    Some(complete)
}

/// Walks the nodes of a map, in the order of its keys.
#[cycle(order)]
pub fn walk_values(values: &BTreeMap<String, Node>, wholes: &[Node], next: u64) -> Option<u64>
    ensures { WalksNodes wholes.now (map (λ p. p.1) values.now.entries) next result }
{
    let mut complete = next;
    for (_, node) in values {
        complete = walk_node(node, wholes, complete)?;
    }
    Some(complete)
}

/// Walks the node in an option.
#[cycle(order)]
fn walk_option(content: &Option<Box<Node>>, wholes: &[Node], next: u64) -> Option<u64>
    ensures { WalksNode wholes.now (node_of.Maybe content.now) next result }
{
    match content {
        Some(node) => walk_node(node, wholes, next),
        None => Some(next),
    }
}

/// Walks the node in a whole, unless the whole is complete, and completes the whole. The numbers in that node are below
/// its own.
#[cycle(order)]
fn walk_whole(number: u64, wholes: &[Node], next: u64) -> Option<u64>
    ensures { WalksNode wholes.now (node_of.Whole number) next result }
{
    if number < next {
        return Some(next);
    }
    let node = wholes.get(number as usize)?;
    let complete = walk_node(node, &wholes[..number as usize], next)?;
    if complete == number {
        Some(number + 1)
    } else {
        None
    }
}

/// Walks a node, where the wholes with numbers below `next` are complete. Returns the number of the wholes that are
/// complete after it, or `None` if one was completed before those with lower numbers.
#[cycle(order)]
pub fn walk_node(node: &Node, wholes: &[Node], next: u64) -> Option<u64>
    ensures { WalksNode wholes.now node.now next result }
{
    match node {
        Node::Bool(_) | Node::Int(_) | Node::Text(_) | Node::Shared(_) => Some(next),
        Node::Maybe(content) => walk_option(content, wholes, next),
        Node::List(nodes) => walk_nodes(nodes, wholes, next),
        Node::Ordered(values) => walk_values(values, wholes, next),
        Node::Hashed(values) => walk_values(values, wholes, next),
        Node::Kept(pairs) => walk_pairs(pairs, wholes, next),
        Node::Whole(number) => walk_whole(*number, wholes, next),
    }
}

/// Returns whether the wholes of a root are those of `wholes`, each once and in the order in which a walk first completes
/// them. It allocates no memory, and visits each node once.
pub fn are_in_order(wholes: &[Node], root: &Node) -> bool
    ensures { TellsOrder wholes.now root.now result }
{
    match walk_node(root, wholes, 0) {
        Some(complete) => complete == wholes.len() as u64,
        None => false,
    }
}
