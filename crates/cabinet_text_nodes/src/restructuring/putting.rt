//! Puts a node at a step from a container.
ghost use Rattle.std.specs.Prelude.{◌^◌, ◌<◌, length};
ghost use Rattle.cabinet_text_grammar.specs.Keys.{kept};
ghost use Rattle.cabinet_text_nodes.specs.Restructures.{PutsContent, PutsElement, PutsPair, PutsStep, PutsValue, StaysCounted};
ghost use Rattle.cabinet_text_nodes.specs.View.{step_of};

use crate::answer::EditAnswer;
use crate::change::place_of;
use crate::line::Step;
use crate::node::Node;
use crate::restructuring::replacing::replace;
use std::alloc::{AllocError, Global};
use std::collections::BTreeMap;

/// Puts a node in an option.
fn put_content(
    alloc: Global,
    content: &mut Option<Box<Node>>,
    new: Node,
    fits: bool,
    wholes: &[Node],
) -> Result<EditAnswer, AllocError>
    ensures { PutsContent wholes.now content.old content.new new fits result }
{
    if let Some(node) = content {
        return Ok(replace(node, new, fits, wholes));
    }
    if !fits {
        return Ok(EditAnswer::Refused);
    }
    *content = Some(Box::new(alloc, new)?);
    Ok(EditAnswer::Done)
}

/// Puts a node in the place of an element, or after the last.
fn put_element(
    elements: &mut Vec<Node>,
    place: u64,
    new: Node,
    fits: bool,
    wholes: &[Node],
) -> Result<EditAnswer, AllocError>
    ensures { PutsElement wholes.now elements.old.items elements.new.items place new fits result }
{
    let place = place as usize;
    if place < elements.len() {
        return Ok(replace(&mut elements[place], new, fits, wholes));
    }
    if place > elements.len() {
        return Ok(EditAnswer::Missing);
    }
    if !fits {
        return Ok(EditAnswer::Refused);
    }
    elements.push(new)?;
    Ok(EditAnswer::Done)
}

/// Puts a node under a key of an ordered or a hashed map.
fn put_value(
    alloc: Global,
    map: &mut BTreeMap<String, Node>,
    key: &str,
    new: Node,
    fits: bool,
    wholes: &[Node],
) -> Result<EditAnswer, AllocError>
    ensures puts { PutsValue wholes.now map.old.entries map.new.entries key.now new fits result }
    ensures counted { length map.new.entries < 2 ^ 64 }
{
    // this ensures that there are fewer than 2^63 pairs
    let _count = map.len();
    if let Some(value) = map.get_mut(key) {
        return Ok(replace(value, new, fits, wholes));
    }
    if !fits {
        return Ok(EditAnswer::Refused);
    }
    map.insert(String::from_str(alloc, key)?, new)?;
    Ok(EditAnswer::Done)
}

/// Puts a node under a key of a kept map.
fn put_kept_value(
    alloc: Global,
    pairs: &mut Vec<(String, Node)>,
    key: &str,
    new: Node,
    fits: bool,
    wholes: &[Node],
) -> Result<EditAnswer, AllocError>
    ensures { PutsPair kept wholes.now pairs.old.items pairs.new.items key.now new fits result }
{
    if let Some(place) = place_of(pairs, key) {
        return Ok(replace(&mut pairs[place].1, new, fits, wholes));
    }
    if !fits {
        return Ok(EditAnswer::Refused);
    }
    pairs.push((String::from_str(alloc, key)?, new))?;
    Ok(EditAnswer::Done)
}

/// Puts a node at a step from a container: in the place of the one there, under a new key, after the last element, or in an
/// empty option.
pub(crate) fn put_step(
    alloc: Global,
    node: &mut Node,
    step: &Step,
    new: Node,
    fits: bool,
    wholes: &[Node],
) -> Result<EditAnswer, AllocError>
    ensures puts { PutsStep wholes.now node.old node.new (step_of step.now) new fits result }
    ensures counted { StaysCounted node.old node.new }
{
    match node {
        Node::Maybe(content) => match step {
            Step::Inside => put_content(alloc, content, new, fits, wholes),
            _ => Ok(EditAnswer::Missing),
        },
        Node::List(elements) => match step {
            Step::Place(place) => put_element(elements, *place, new, fits, wholes),
            _ => Ok(EditAnswer::Missing),
        },
        Node::Ordered(map) => match step {
            Step::Key(key) => put_value(alloc, map, key.as_str(), new, fits, wholes),
            _ => Ok(EditAnswer::Missing),
        },
        Node::Hashed(map) => match step {
            Step::Key(key) => put_value(alloc, map, key.as_str(), new, fits, wholes),
            _ => Ok(EditAnswer::Missing),
        },
        Node::Kept(pairs) => match step {
            Step::Key(key) => put_kept_value(alloc, pairs, key.as_str(), new, fits, wholes),
            _ => Ok(EditAnswer::Missing),
        },
        Node::Whole(_) => match step {
            Step::Inside => Ok(EditAnswer::Refused),
            _ => Ok(EditAnswer::Missing),
        },
        _ => Ok(EditAnswer::Missing),
    }
}
