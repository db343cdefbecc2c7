//! Finds the node that a path leads to.
ghost use Rattle.std.specs.Prelude.{◌∷◌, []};
ghost use Rattle.cabinet_text_grammar.specs.Path as grammar;
ghost use Rattle.cabinet_text_nodes.specs.Calls.{FindsValue, FindsFrom};
ghost use Rattle.cabinet_text_nodes.specs.View.{step_of, path_of};
ghost use Rattle.cabinet_text_nodes.specs.declared.node.Node.TheVariants as node_of;

use crate::line::Step;
use crate::node::Node;

/// Returns the node of a key. It compares the key with each key up to the one that is equal.
fn node_by<'d>(pairs: &'d [(String, Node)], key: &str) -> Option<&'d Node>
    ensures { FindsValue pairs.now key.now result }
{
    for (other, node) in pairs {
        if other.as_str() == key {
            return Some(node);
        }
    }
    None
}

/// Returns the node at one step from another. `wholes` has the trees of the wholes, by their numbers.
fn node_behind<'d>(wholes: &'d [Node], node: &'d Node, step: &Step) -> Option<&'d Node>
    ensures { FindsFrom wholes.now node.now (step_of step.now ∷ []) result }
{
    match (node, step) {
        (Node::Maybe(Some(content)), Step::Inside) => Some(content),
        (Node::List(elements), Step::Place(place)) => elements.get(*place as usize),
        (Node::Ordered(map), Step::Key(key)) => map.get(key.as_str()),
        (Node::Hashed(map), Step::Key(key)) => map.get(key.as_str()),
        (Node::Kept(pairs), Step::Key(key)) => node_by(pairs, key.as_str()),
        (Node::Whole(number), Step::Inside) => wholes.get(*number as usize),
        _ => None,
    }
}

/// Returns the node that a path leads to, if it leads to one. It allocates no memory. A step by the key of an ordered
/// or a hashed map takes time in proportion to the logarithm of the map's length.
pub(crate) fn node_at<'d>(wholes: &'d [Node], root: &'d Node, path: &[Step]) -> Option<&'d Node>
    ensures { FindsFrom wholes.now root.now (path_of path.now) result }
{
    let mut node = root;
    for step in path {
        node = node_behind(wholes, node, step)?;
    }
    Some(node)
}

/// Returns the node that a path leads to in the whole of a number.
pub(crate) fn node_in_whole<'d>(wholes: &'d [Node], number: u64, path: &[Step]) -> Option<&'d Node>
    ensures { FindsFrom wholes.now (node_of.Whole number) (grammar.inside ∷ path_of path.now) result }
{
    node_at(wholes, wholes.get(number as usize)?, path)
}
