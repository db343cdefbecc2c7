//! Inserts a node before an element of a list.
ghost use Rattle.std.specs.Prelude.{List};
ghost use Rattle.cabinet_text_grammar.specs.Tree.{Tree};
ghost use Rattle.cabinet_text_nodes.specs.Restructures.{InsertsElement, InsertsStep, StaysCounted};
ghost use Rattle.cabinet_text_nodes.specs.View.{step_of};

use crate::answer::EditAnswer;
use crate::line::Step;
use crate::node::Node;
use std::alloc::AllocError;

/// Inserts a node before the element at a place, or after the last.
fn insert_element(
    elements: &mut Vec<Node>,
    place: u64,
    new: Node,
    fits: bool,
) -> Result<EditAnswer, AllocError>
    ensures { InsertsElement elements.old.items elements.new.items place new fits result }
{
    let place = place as usize;
    if place > elements.len() {
        return Ok(EditAnswer::Missing);
    }
    if !fits {
        return Ok(EditAnswer::Refused);
    }
    elements.insert(place, new)?;
    Ok(EditAnswer::Done)
}

/// Inserts a node at a step from a container.
pub(crate) fn insert_step(
    node: &mut Node,
    step: &Step,
    new: Node,
    fits: bool,
) -> Result<EditAnswer, AllocError>
    ensures inserts { (table : List Tree) → InsertsStep table node.old node.new (step_of step.now) new fits result }
    ensures counted { StaysCounted node.old node.new }
{
    match node {
        Node::List(elements) => match step {
            Step::Place(place) => insert_element(elements, *place, new, fits),
            _ => Ok(EditAnswer::Missing),
        },
        Node::Whole(_) => match step {
            Step::Inside => Ok(EditAnswer::Refused),
            _ => Ok(EditAnswer::Missing),
        },
        _ => Ok(EditAnswer::Missing),
    }
}
