//! Puts a leaf in the place of another.
ghost use Rattle.std.specs.Prelude.{◌≡◌, ◌<◌, [], length, string_bytes, IfSome};
ghost use Rattle.cabinet_text_grammar.specs.Keys.{kept};
ghost use Rattle.cabinet_text_nodes.specs.Calls.{PutsLeaf, SetsInNode, SetsInOption, SetsInList, SetsInMap, SetsInAnyMap, SetsNoneIn};
ghost use Rattle.cabinet_text_nodes.specs.Answers.{place_by};
ghost use Rattle.cabinet_text_nodes.specs.View.{node_pairs};

use crate::answer::EditAnswer;
use crate::leaf::LeafRef;
use crate::line::Step;
use crate::node::Node;
use crate::walk::node_in_whole;
use std::collections::BTreeMap;

/// Writes a text over another of the same length. It allocates no memory.
fn write_over(text: &mut String, new: &str)
    requires { length (string_bytes text.old) ≡ length new.now }
    ensures { string_bytes text.new ≡ new.now }
{
    text.clear();
    text.push_str(new).unwrap();
}

/// Puts a leaf in the place of a node.
fn put_leaf(node: &mut Node, leaf: LeafRef<'_>) -> EditAnswer
    ensures { PutsLeaf node.old leaf.entry result node.new }
{
    match (node, leaf) {
        (Node::Bool(there), LeafRef::Bool(value)) => {
            *there = value;
            EditAnswer::Done
        }
        (Node::Int(there), LeafRef::Int(number)) => {
            *there = number;
            EditAnswer::Done
        }
        (Node::Text(there), LeafRef::Text(text)) if there.len() == text.len() => {
            write_over(there, text);
            EditAnswer::Done
        }
        _ => EditAnswer::Refused,
    }
}

/// Returns the place of a key. It compares the key with each key up to its place.
pub(crate) fn place_of(pairs: &[(String, Node)], key: &str) -> Option<usize>
    ensures place { result ≡ place_by (node_pairs [] pairs.now) key.now }
    ensures within { IfSome result (λ place. place < length pairs.now) }
{
    for (place, (other, _)) in pairs.iter().enumerate() {
        if other.as_str() == key {
            return Some(place);
        }
    }
    None
}

/// Puts a leaf at a path that leads through an option.
#[cycle(change)]
fn change_inside(
    content: &mut Option<Box<Node>>,
    step: &Step,
    rest: &[Step],
    leaf: LeafRef<'_>,
    wholes: &[Node],
) -> EditAnswer
    ensures { SetsInOption wholes.now content.old step.now rest.now leaf.entry result content.new }
{
    let Step::Inside = step else {
        return EditAnswer::Missing;
    };
    let Some(content) = content else {
        return EditAnswer::Missing;
    };
    change_at(content, rest, leaf, wholes)
}

/// Puts a leaf at a path that leads through a list.
#[cycle(change)]
fn change_element(
    elements: &mut Vec<Node>,
    step: &Step,
    rest: &[Step],
    leaf: LeafRef<'_>,
    wholes: &[Node],
) -> EditAnswer
    ensures { SetsInList wholes.now elements.old.items step.now rest.now leaf.entry result elements.new.items }
{
    let Step::Place(place) = step else {
        return EditAnswer::Missing;
    };
    match elements.get_mut(*place as usize) {
        Some(element) => change_at(element, rest, leaf, wholes),
        None => EditAnswer::Missing,
    }
}

/// Puts a leaf at a path that leads through an ordered or a hashed map.
#[cycle(change)]
fn change_value(
    map: &mut BTreeMap<String, Node>,
    step: &Step,
    rest: &[Step],
    leaf: LeafRef<'_>,
    wholes: &[Node],
) -> EditAnswer
    ensures { SetsInAnyMap wholes.now map.old.entries step.now rest.now leaf.entry result map.new.entries }
{
    let Step::Key(key) = step else {
        return EditAnswer::Missing;
    };
    match map.get_mut(key.as_str()) {
        Some(value) => change_at(value, rest, leaf, wholes),
        None => EditAnswer::Missing,
    }
}

/// Puts a leaf at a path that leads through a kept map.
#[cycle(change)]
fn change_kept_value(
    pairs: &mut Vec<(String, Node)>,
    step: &Step,
    rest: &[Step],
    leaf: LeafRef<'_>,
    wholes: &[Node],
) -> EditAnswer
    ensures { SetsInMap kept wholes.now pairs.old.items step.now rest.now leaf.entry result pairs.new.items }
{
    let Step::Key(key) = step else {
        return EditAnswer::Missing;
    };
    match place_of(pairs, key.as_str()) {
        Some(place) => change_at(&mut pairs[place].1, rest, leaf, wholes),
        None => EditAnswer::Missing,
    }
}

/// Returns the outcome of setting a leaf at a path that leads through a whole, where nothing is set.
fn refuse_in_whole(number: u64, step: &Step, rest: &[Step], wholes: &[Node]) -> EditAnswer
    ensures { SetsNoneIn wholes.now number step.now rest.now result }
{
    let Step::Inside = step else {
        return EditAnswer::Missing;
    };
    match node_in_whole(wholes, number, rest) {
        Some(_) => EditAnswer::Refused,
        None => EditAnswer::Missing,
    }
}

/// Puts a leaf at a path. The depth of its recursion is at most the depth at which nodes lie in one another.
#[cycle(change)]
pub(crate) fn change_at(
    node: &mut Node,
    path: &[Step],
    leaf: LeafRef<'_>,
    wholes: &[Node],
) -> EditAnswer
    ensures { SetsInNode wholes.now node.old path.now leaf.entry result node.new }
{
    let Some((step, rest)) = path.split_first() else {
        return put_leaf(node, leaf);
    };
    match node {
        Node::Maybe(content) => change_inside(content, step, rest, leaf, wholes),
        Node::List(elements) => change_element(elements, step, rest, leaf, wholes),
        Node::Ordered(map) => change_value(map, step, rest, leaf, wholes),
        Node::Hashed(map) => change_value(map, step, rest, leaf, wholes),
        Node::Kept(pairs) => change_kept_value(pairs, step, rest, leaf, wholes),
        Node::Whole(number) => refuse_in_whole(*number, step, rest, wholes),
        _ => EditAnswer::Missing,
    }
}
