//! Checks whether a node is the root of a document, or the tree of a whole.
ghost use Rattle.std.specs.Prelude.{◌≡◌, map};
ghost use Rattle.cabinet_text_nodes.specs.Faults.{worse_of, IsInside, NodeFault, NodeFaults};
ghost use Rattle.cabinet_text_nodes.specs.declared.node.Node.TheVariants as node_of;

use crate::node::Node;
use crate::refusal::DocumentRefusal;
use crate::repeated::repeats_key;
use std::collections::BTreeMap;

/// Returns the fault that is reported of two: `UnknownWhole` before `TooDeep`, and that before `RepeatedKey`.
pub(crate) fn worse(
    one: Option<DocumentRefusal>,
    other: Option<DocumentRefusal>,
) -> Option<DocumentRefusal>
    ensures { result ≡ worse_of one other }
{
    match (one, other) {
        (None, fault) | (fault, None) => fault,
        (Some(DocumentRefusal::UnknownWhole), _) | (_, Some(DocumentRefusal::UnknownWhole)) => {
            Some(DocumentRefusal::UnknownWhole)
        }
        (Some(DocumentRefusal::TooDeep), _) => Some(DocumentRefusal::TooDeep),
        (_, fault) => fault,
    }
}

/// Returns the room inside a container, and the fault of the container if there is no room for it.
fn inside(room: usize) -> (usize, Option<DocumentRefusal>)
    ensures { IsInside room result.0 result.1 }
{
    match room.checked_sub(1) {
        Some(inner) => (inner, None),
        None => (0, Some(DocumentRefusal::TooDeep)),
    }
}

/// Returns the fault of several nodes, where at most `room` containers may lie in one another.
#[cycle(faults)]
fn fault_among(nodes: &[Node], depths: &[usize], room: usize) -> Option<DocumentRefusal>
    ensures { NodeFaults depths.now room nodes.now result }
{
    let mut fault = None;
    for node in nodes {
        fault = worse(fault, fault_of(node, depths, room));
    }
    fault
}

/// Returns the fault of the nodes of pairs, where at most `room` containers may lie in one another.
#[cycle(faults)]
fn fault_among_pairs(
    pairs: &[(String, Node)],
    depths: &[usize],
    room: usize,
) -> Option<DocumentRefusal>
    ensures { NodeFaults depths.now room (map (λ p. p.1) pairs.now) result }
{
    let mut fault = None;
    for (_, node) in pairs {
        fault = worse(fault, fault_of(node, depths, room));
    }
    fault
}

/// Returns the fault of the nodes of a map, where at most `room` containers may lie in one another.
#[cycle(faults)]
fn fault_among_values(
    values: &BTreeMap<String, Node>,
    depths: &[usize],
    room: usize,
) -> Option<DocumentRefusal>
    ensures { NodeFaults depths.now room (map (λ p. p.1) values.now.entries) result }
{
    let mut fault = None;
    for (_, node) in values {
        fault = worse(fault, fault_of(node, depths, room));
    }
    fault
}

/// Returns the fault of an option, where at most `room` containers may lie in one another.
#[cycle(faults)]
fn fault_in_option(
    content: &Option<Box<Node>>,
    depths: &[usize],
    room: usize,
) -> Option<DocumentRefusal>
    ensures { NodeFault depths.now room (node_of.Maybe content.now) result }
{
    let (room, own) = inside(room);
    match content {
        Some(node) => worse(own, fault_of(node, depths, room)),
        None => own,
    }
}

/// Returns the fault of a list, where at most `room` containers may lie in one another.
#[cycle(faults)]
fn fault_in_list(nodes: &Vec<Node>, depths: &[usize], room: usize) -> Option<DocumentRefusal>
    ensures { NodeFault depths.now room (node_of.List nodes.now) result }
{
    let (room, own) = inside(room);
    worse(own, fault_among(nodes.as_slice(), depths, room))
}

/// Returns the fault of an ordered or a hashed map, where at most `room` containers may lie in one another.
#[cycle(faults)]
fn fault_in_map(
    values: &BTreeMap<String, Node>,
    depths: &[usize],
    room: usize,
) -> Option<DocumentRefusal>
    ensures ordered { NodeFault depths.now room (node_of.Ordered values.now) result }
    ensures hashed { NodeFault depths.now room (node_of.Hashed values.now) result }
{
    let (room, own) = inside(room);
    let _count = values.len();
    worse(own, fault_among_values(values, depths, room))
}

/// Returns the fault of a kept map, where at most `room` containers may lie in one another.
#[cycle(faults)]
fn fault_in_kept(
    pairs: &Vec<(String, Node)>,
    depths: &[usize],
    room: usize,
) -> Option<DocumentRefusal>
    ensures { NodeFault depths.now room (node_of.Kept pairs.now) result }
{
    let (room, own) = inside(room);
    let among = worse(own, fault_among_pairs(pairs.as_slice(), depths, room));
    if repeats_key(pairs) {
        worse(Some(DocumentRefusal::RepeatedKey), among)
    } else {
        among
    }
}

/// Returns the fault of a whole with this number, where at most `room` containers may lie in one another.
fn fault_of_whole(number: u64, depths: &[usize], room: usize) -> Option<DocumentRefusal>
    ensures { NodeFault depths.now room (node_of.Whole number) result }
{
    match depths.get(number as usize) {
        None => Some(DocumentRefusal::UnknownWhole),
        Some(depth) if *depth >= room => Some(DocumentRefusal::TooDeep),
        Some(_) => None,
    }
}

/// Returns the fault of a node, where at most `room` containers may lie in one another. `depths` has the depths of the
/// trees of the wholes, by their numbers. Each node is visited, since an unknown number is reported before all else.
#[cycle(faults)]
pub(crate) fn fault_of(node: &Node, depths: &[usize], room: usize) -> Option<DocumentRefusal>
    ensures { NodeFault depths.now room node.now result }
{
    match node {
        Node::Bool(_) => None,
        Node::Int(number) => {
            let _number = *number;
            None
        }
        Node::Text(_) => None,
        Node::Shared(_) => None,
        Node::Maybe(content) => fault_in_option(content, depths, room),
        Node::List(nodes) => fault_in_list(nodes, depths, room),
        Node::Ordered(values) => fault_in_map(values, depths, room),
        Node::Hashed(values) => fault_in_map(values, depths, room),
        Node::Kept(pairs) => fault_in_kept(pairs, depths, room),
        Node::Whole(number) => fault_of_whole(*number, depths, room),
    }
}
