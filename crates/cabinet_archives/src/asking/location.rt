//! The kind of the node that a path leads to, and what the way there takes.
ghost use Rattle.std.specs.Prelude.{◌≡◌, length};
ghost use Rattle.std.specs.Option.{option_map};
ghost use Rattle.archive_shape_layout.specs.Content.Part.{at};
ghost use Rattle.archive_shape_layout.specs.Holds.{root_position as position_of_root};
ghost use Rattle.archive_forms_values.specs.Parts.{HasValue};
ghost use Rattle.cabinet_documents.specs.Accepted.{Accepted};
ghost use Rattle.cabinet_documents.specs.Node.{node_shape, KnowsNode};
ghost use Rattle.cabinet_text_nodes.specs.Kinds.{kind_of};
ghost use Rattle.cabinet_text_grammar.specs.Path.{node_at};
ghost use Rattle.cabinet_text_grammar.specs.Tree.{Tree};
ghost use Rattle.cabinet_text_nodes.specs.View.{path_of};
ghost use Rattle.cabinet_archives.specs.Cost.{CountsPath, PathTakes};
ghost use Rattle.cabinet_archives.specs.Found.{OfDocument};
ghost use Rattle.cabinet_archives.specs.Sound.{IsSoundPart};

use crate::asking::walk::find_counted;
use archive_core_validation::root_position;
use archive_hash_probing::Scan;
use archive_shape::{Ref, Steps};
use cabinet_archived::{ArchivedKind, ArchivedNode};
use cabinet_text_nodes::{Kind, Step};

/// Returns the kind of a node. Reads only its tag.
fn kind(node: Ref<'_, ArchivedNode>) -> Kind
    requires { HasValue node_shape KnowsNode node.bytes.now node.pos }
    ensures { OfDocument node.entry.bytes.now node.entry.pos (λ t. result ≡ kind_of t) }
{
    match ArchivedNode::kind(node) {
        ArchivedKind::Bool(_) => Kind::Bool,
        ArchivedKind::Int(_) => Kind::Int,
        ArchivedKind::Text(_) => Kind::Text,
        ArchivedKind::Shared(_) => Kind::Shared,
        ArchivedKind::Maybe(_) => Kind::Maybe,
        ArchivedKind::List(_) => Kind::List,
        ArchivedKind::Ordered(_) => Kind::Ordered,
        ArchivedKind::Hashed(_) => Kind::Hashed,
        ArchivedKind::Kept(_) => Kind::Kept,
        ArchivedKind::Whole(_) => Kind::Whole,
    }
}

/// Returns the kind of the node that a path leads to from `root`, if it leads to one, and counts what its look-ups take.
fn kind_at<G: Scan>(root: Ref<'_, ArchivedNode>, path: &[Step]) -> (Option<Kind>, Steps)
    requires there { HasValue node_shape KnowsNode root.bytes.now root.pos }
    requires sound { IsSoundPart root.bytes.now (at root.pos node_shape) }
    ensures kind { OfDocument root.entry.bytes.now root.entry.pos (λ t. result.0 ≡ option_map kind_of (node_at t (path_of path.now))) }
    ensures counts { CountsPath root.entry.bytes.now root.entry.pos (path_of path.now) result.1.comparisons result.1.strides }
{
    let (found, steps) = find_counted::<G>(root, path);
    match found {
        Some(found) => (Some(kind(found.node)), steps),
        None => (None, steps),
    }
}

/// Returns the kind of the node that a path leads to, if it leads to one, and what the look-ups on the path take: the
/// keys that are compared in search trees, and the strides that are searched in tables. The caller chooses the scan `G`,
/// by which keys of hashed and kept maps are looked up: all take the same.
pub fn locate<G: Scan>(bytes: &[u8], path: &[Step]) -> (Option<Kind>, Steps)
    requires { ∥ ((t : Tree) × Accepted bytes.now t) ∥₁ }
    ensures kind { (t : Tree) → Accepted bytes.entry.now t
        → result.0 ≡ option_map kind_of (node_at t (path_of path.now)) }
    ensures takes { PathTakes bytes.entry.now (position_of_root (length bytes.entry.now) node_shape)
        (path_of path.now) result.1.comparisons result.1.strides }
{
    let root = Ref::<ArchivedNode>::new(bytes, root_position::<ArchivedNode>(bytes.len()));
    kind_at::<G>(root, path)
}
