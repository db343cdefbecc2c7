//! Takes a node out of its container.
ghost use Rattle.cabinet_text_grammar.specs.Keys.{kept};
ghost use Rattle.cabinet_text_nodes.specs.Restructures.{RemovesContent, RemovesElement, RemovesPair, RemovesStep, RemovesValue};
ghost use Rattle.cabinet_text_nodes.specs.View.{step_of};

use crate::answer::EditAnswer;
use crate::change::place_of;
use crate::line::Step;
use crate::node::Node;
use crate::restructuring::replacing::has_no_whole;
use std::collections::BTreeMap;

/// Takes the node out of an option.
fn remove_content(content: &mut Option<Box<Node>>, wholes: &[Node]) -> EditAnswer
    ensures { RemovesContent wholes.now content.old content.new result }
{
    match content {
        None => EditAnswer::Missing,
        Some(node) if !has_no_whole(node, wholes) => EditAnswer::Refused,
        Some(_) => {
            *content = None;
            EditAnswer::Done
        }
    }
}

/// Takes an element out of a list.
fn remove_element(elements: &mut Vec<Node>, place: u64, wholes: &[Node]) -> EditAnswer
    ensures { RemovesElement wholes.now elements.old.items elements.new.items place result }
{
    let place = place as usize;
    match elements.get(place) {
        None => EditAnswer::Missing,
        Some(node) if !has_no_whole(node, wholes) => EditAnswer::Refused,
        Some(_) => {
            let _removed = elements.remove(place);
            EditAnswer::Done
        }
    }
}

/// Takes a pair out of an ordered or a hashed map.
fn remove_value(map: &mut BTreeMap<String, Node>, key: &str, wholes: &[Node]) -> EditAnswer
    ensures { RemovesValue wholes.now map.old.entries map.new.entries key.now result }
{
    match map.get(key) {
        None => EditAnswer::Missing,
        Some(node) if !has_no_whole(node, wholes) => EditAnswer::Refused,
        Some(_) => {
            let _removed = map.remove(key);
            EditAnswer::Done
        }
    }
}

/// Takes a pair out of a kept map.
fn remove_kept_value(pairs: &mut Vec<(String, Node)>, key: &str, wholes: &[Node]) -> EditAnswer
    ensures { RemovesPair kept wholes.now pairs.old.items pairs.new.items key.now result }
{
    let Some(place) = place_of(pairs, key) else {
        return EditAnswer::Missing;
    };
    if !has_no_whole(&pairs[place].1, wholes) {
        return EditAnswer::Refused;
    }
    let _removed = pairs.remove(place);
    EditAnswer::Done
}

/// Takes what a step leads to out of a container.
pub(crate) fn remove_step(node: &mut Node, step: &Step, wholes: &[Node]) -> EditAnswer
    ensures { RemovesStep wholes.now node.old node.new (step_of step.now) result }
{
    match node {
        Node::Maybe(content) => match step {
            Step::Inside => remove_content(content, wholes),
            _ => EditAnswer::Missing,
        },
        Node::List(elements) => match step {
            Step::Place(place) => remove_element(elements, *place, wholes),
            _ => EditAnswer::Missing,
        },
        Node::Ordered(map) => match step {
            Step::Key(key) => remove_value(map, key.as_str(), wholes),
            _ => EditAnswer::Missing,
        },
        Node::Hashed(map) => match step {
            Step::Key(key) => remove_value(map, key.as_str(), wholes),
            _ => EditAnswer::Missing,
        },
        Node::Kept(pairs) => match step {
            Step::Key(key) => remove_kept_value(pairs, key.as_str(), wholes),
            _ => EditAnswer::Missing,
        },
        Node::Whole(_) => match step {
            Step::Inside => EditAnswer::Refused,
            _ => EditAnswer::Missing,
        },
        _ => EditAnswer::Missing,
    }
}
