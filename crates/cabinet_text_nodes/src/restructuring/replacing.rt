//! Puts a node in the place of another.
ghost use Rattle.std.specs.Bool.{Decides};
ghost use Rattle.std.specs.Prelude.{◌≡◌, []};
ghost use Rattle.cabinet_text_grammar.specs.Tree.{IsLegal};
ghost use Rattle.cabinet_text_grammar.specs.Wholes.{wholes_of, IsTable};
ghost use Rattle.cabinet_text_nodes.specs.Restructures.{Becomes, if_fits};
ghost use Rattle.cabinet_text_grammar.specs.Restructuring.{in_place_of};
ghost use Rattle.cabinet_text_nodes.specs.View.{node_tree, table_of};

use crate::answer::EditAnswer;
use crate::node::Node;
use crate::order::walk_node;

/// Returns whether no whole lies in a node. It visits each node in it and each whole once.
pub(crate) fn has_no_whole(node: &Node, wholes: &[Node]) -> bool
    ensures { IsTable (table_of wholes.now) → IsLegal (node_tree (table_of wholes.now) node.now)
        → Decides result (wholes_of (node_tree (table_of wholes.now) node.now) ≡ []) }
{
    match walk_node(node, wholes, 0) {
        Some(complete) => complete == 0,
        None => false,
    }
}

/// Puts a node in the place of another, if it fits there and no whole lies in the other.
pub(crate) fn replace(node: &mut Node, new: Node, fits: bool, wholes: &[Node]) -> EditAnswer
    ensures { IsTable (table_of wholes.now) → IsLegal (node_tree (table_of wholes.now) node.old)
        → Becomes (if_fits fits (in_place_of (node_tree (table_of wholes.now) node.old) (node_tree (table_of wholes.now) new))) result
        (node_tree (table_of wholes.now) node.old) (node_tree (table_of wholes.now) node.new) }
{
    if !fits || !has_no_whole(node, wholes) {
        return EditAnswer::Refused;
    }
    *node = new;
    EditAnswer::Done
}
