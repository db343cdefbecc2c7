//! Carries out an edit at the last step of a path.
ghost use Rattle.std.specs.Prelude.{◌≡◌, ◌+◌, ◌-◌, ◌^◌, ◌<◌, [], nat_le, OnErr};
ghost use Rattle.cabinet_text_grammar.specs.Keys.{MapKind, kept};
ghost use Rattle.cabinet_text_grammar.specs.Tree.{depth};
ghost use Rattle.cabinet_text_nodes.specs.Restructures.{CountsElements, CountsNode, CountsPairs, EditsAnyPair, EditsContainer, EditsContent, EditsElement, EditsNode, EditsPair, ReplacesRoot, TakesMemory};
ghost use Rattle.cabinet_text_nodes.specs.declared.node.Node.TheVariants as node_of;
ghost use Rattle.cabinet_text_nodes.specs.View.{node_tree, path_of, step_of};

use crate::answer::EditAnswer;
use crate::change::place_of;
use crate::depth::depth_of;
use crate::line::Step;
use crate::node::Node;
use crate::restructuring::inserting::insert_step;
use crate::restructuring::putting::put_step;
use crate::restructuring::removing::remove_step;
use crate::restructuring::replacing::replace;
use cabinet_text_grammar::MAX_DEPTH;
use std::alloc::{AllocError, Global};
use std::collections::BTreeMap;

/// An edit of a container by a step from it. The new node has no wholes.
#[derive(Drop)]
pub(crate) enum Edit {
    Put(Global, Node),
    Insert(Node),
    Remove,
}

/// Returns whether a node may lie inside so many containers.
fn fits_inside(outer: usize, node: &Node) -> bool
    ensures { depth (node_tree [] node.now) < 2 ^ 64 - 1 → result ≡ nat_le (outer + depth (node_tree [] node.now)) 64 }
{
    outer <= MAX_DEPTH && depth_of(node, <&[usize]>::default()) <= MAX_DEPTH - outer
}

/// Puts a node in the place of the root.
pub(crate) fn replace_root(root: &mut Node, new: Node, wholes: &[Node]) -> EditAnswer
    ensures { ReplacesRoot wholes.now root.old root.new new result }
{
    let fits = fits_inside(0, &new);
    replace(root, new, fits, wholes)
}

/// Carries out an edit of a container that lies inside `outer` others.
fn edit_container(
    node: &mut Node,
    step: &Step,
    outer: usize,
    edit: Edit,
    wholes: &[Node],
) -> Result<EditAnswer, AllocError>
    ensures edits { EditsContainer wholes.now outer node.old node.new (step_of step.now) edit result }
    ensures counted { CountsNode wholes.now node.old node.new edit }
    ensures memory { OnErr result (TakesMemory edit) }
{
    match edit {
        Edit::Put(alloc, new) => {
            let fits = fits_inside(outer.saturating_add(1), &new);
            put_step(alloc, node, step, new, fits, wholes)
        }
        Edit::Insert(new) => {
            let fits = fits_inside(outer.saturating_add(1), &new);
            insert_step(node, step, new, fits)
        }
        Edit::Remove => Ok(remove_step(node, step, wholes)),
    }
}

/// Carries out an edit inside an option.
#[cycle(edits)]
fn edit_content(
    content: &mut Option<Box<Node>>,
    step: &Step,
    next: &Step,
    rest: &[Step],
    outer: usize,
    edit: Edit,
    wholes: &[Node],
) -> Result<EditAnswer, AllocError>
    ensures edits { EditsContent wholes.now outer content.old content.new (step_of step.now) (step_of next.now) (path_of rest.now) edit result }
    ensures counted { CountsNode wholes.now (node_of.Maybe content.old) (node_of.Maybe content.new) edit }
    ensures memory { OnErr result (TakesMemory edit) }
{
    let Step::Inside = step else {
        return Ok(EditAnswer::Missing);
    };
    let Some(content) = content else {
        return Ok(EditAnswer::Missing);
    };
    edit_at(content, next, rest, outer.saturating_add(1), edit, wholes)
}

/// Carries out an edit inside an element of a list.
#[cycle(edits)]
fn edit_element(
    elements: &mut Vec<Node>,
    step: &Step,
    next: &Step,
    rest: &[Step],
    outer: usize,
    edit: Edit,
    wholes: &[Node],
) -> Result<EditAnswer, AllocError>
    ensures edits { EditsElement wholes.now outer elements.old.items elements.new.items (step_of step.now) (step_of next.now) (path_of rest.now) edit
        result }
    ensures counted { CountsElements wholes.now elements.old.items elements.new.items edit }
    ensures memory { OnErr result (TakesMemory edit) }
{
    let Step::Place(place) = step else {
        return Ok(EditAnswer::Missing);
    };
    match elements.get_mut(*place as usize) {
        Some(element) => edit_at(element, next, rest, outer.saturating_add(1), edit, wholes),
        None => Ok(EditAnswer::Missing),
    }
}

/// Carries out an edit inside the node of a key of an ordered or a hashed map.
#[cycle(edits)]
fn edit_value(
    map: &mut BTreeMap<String, Node>,
    step: &Step,
    next: &Step,
    rest: &[Step],
    outer: usize,
    edit: Edit,
    wholes: &[Node],
) -> Result<EditAnswer, AllocError>
    ensures edits { EditsAnyPair wholes.now outer map.old.entries map.new.entries (step_of step.now) (step_of next.now) (path_of rest.now) edit
        result }
    ensures counted { (kind : MapKind) → CountsPairs kind wholes.now map.old.entries map.new.entries edit }
    ensures memory { OnErr result (TakesMemory edit) }
{
    let Step::Key(key) = step else {
        return Ok(EditAnswer::Missing);
    };
    match map.get_mut(key.as_str()) {
        Some(value) => edit_at(value, next, rest, outer.saturating_add(1), edit, wholes),
        None => Ok(EditAnswer::Missing),
    }
}

/// Carries out an edit inside the node of a key of a kept map.
#[cycle(edits)]
fn edit_kept_value(
    pairs: &mut Vec<(String, Node)>,
    step: &Step,
    next: &Step,
    rest: &[Step],
    outer: usize,
    edit: Edit,
    wholes: &[Node],
) -> Result<EditAnswer, AllocError>
    ensures edits { EditsPair kept wholes.now outer pairs.old.items pairs.new.items (step_of step.now) (step_of next.now) (path_of rest.now) edit
        result }
    ensures counted { CountsPairs kept wholes.now pairs.old.items pairs.new.items edit }
    ensures memory { OnErr result (TakesMemory edit) }
{
    let Step::Key(key) = step else {
        return Ok(EditAnswer::Missing);
    };
    match place_of(pairs, key.as_str()) {
        Some(place) => {
            let node = &mut pairs[place].1;
            edit_at(node, next, rest, outer.saturating_add(1), edit, wholes)
        }
        None => Ok(EditAnswer::Missing),
    }
}

/// Carries out an edit at the last step of a path from a node that lies inside `outer` containers.
#[cycle(edits)]
pub(crate) fn edit_at(
    node: &mut Node,
    step: &Step,
    rest: &[Step],
    outer: usize,
    edit: Edit,
    wholes: &[Node],
) -> Result<EditAnswer, AllocError>
    ensures edits { EditsNode wholes.now outer node.old node.new (step_of step.now) (path_of rest.now) edit result }
    ensures counted { CountsNode wholes.now node.old node.new edit }
    ensures memory { OnErr result (TakesMemory edit) }
{
    let Some((next, behind)) = rest.split_first() else {
        return edit_container(node, step, outer, edit, wholes);
    };
    match node {
        Node::Maybe(content) => edit_content(content, step, next, behind, outer, edit, wholes),
        Node::List(elements) => edit_element(elements, step, next, behind, outer, edit, wholes),
        Node::Ordered(map) => edit_value(map, step, next, behind, outer, edit, wholes),
        Node::Hashed(map) => edit_value(map, step, next, behind, outer, edit, wholes),
        Node::Kept(pairs) => edit_kept_value(pairs, step, next, behind, outer, edit, wholes),
        Node::Whole(_) => match step {
            Step::Inside => Ok(EditAnswer::Refused),
            _ => Ok(EditAnswer::Missing),
        },
        _ => Ok(EditAnswer::Missing),
    }
}
