//! The depth of a node's tree: the largest number of containers that lie in one another.
ghost use Rattle.std.specs.Prelude.{map};
ghost use Rattle.cabinet_text_nodes.specs.Depths.{NodeDepth, NodesDepth};
ghost use Rattle.cabinet_text_nodes.specs.declared.node.Node.TheVariants as node_of;

use crate::node::Node;
use std::collections::BTreeMap;

/// Returns the largest depth of several nodes, or 0 if there are none.
#[cycle(depths)]
fn most_among(nodes: &[Node], depths: &[usize]) -> usize
    ensures { NodesDepth depths.now nodes.now result }
{
    let mut most = 0;
    for node in nodes {
        most = most.max(depth_of(node, depths));
    }
    most
}

/// Returns the largest depth of the nodes of pairs, or 0 if there are none.
#[cycle(depths)]
fn most_among_pairs(pairs: &[(String, Node)], depths: &[usize]) -> usize
    ensures { NodesDepth depths.now (map (λ p. p.1) pairs.now) result }
{
    let mut most = 0;
    for (_, node) in pairs {
        most = most.max(depth_of(node, depths));
    }
    most
}

/// Returns the largest depth of the nodes of a map, or 0 if there are none.
#[cycle(depths)]
fn most_among_values(values: &BTreeMap<String, Node>, depths: &[usize]) -> usize
    ensures { NodesDepth depths.now (map (λ p. p.1) values.now.entries) result }
{
    let mut most = 0;
    for (_, node) in values {
        most = most.max(depth_of(node, depths));
    }
    most
}

/// Returns the depth of an option's tree.
#[cycle(depths)]
fn depth_of_option(content: &Option<Box<Node>>, depths: &[usize]) -> usize
    ensures { NodeDepth depths.now (node_of.Maybe content.now) result }
{
    match content {
        Some(node) => depth_of(node, depths).saturating_add(1),
        None => 1,
    }
}

/// Returns the depth of a node's tree. `depths` has the depths of the trees of the wholes, by their numbers.
#[cycle(depths)]
pub fn depth_of(node: &Node, depths: &[usize]) -> usize
    ensures { NodeDepth depths.now node.now result }
{
    let inside = match node {
        Node::Bool(_) | Node::Int(_) | Node::Text(_) | Node::Shared(_) => return 0,
        Node::Maybe(content) => return depth_of_option(content, depths),
        Node::List(nodes) => most_among(nodes, depths),
        Node::Ordered(values) => most_among_values(values, depths),
        Node::Hashed(values) => most_among_values(values, depths),
        Node::Kept(pairs) => most_among_pairs(pairs, depths),
        Node::Whole(number) => depths.get(*number as usize).copied().unwrap_or(0),
    };
    inside.saturating_add(1)
}
