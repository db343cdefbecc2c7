//! Whether an archived node is a leaf.
ghost use Rattle.std.specs.Prelude.{◌≤◌, ◌↔◌, IsTrue, slice_index};
ghost use Rattle.archive_forms_values.specs.Parts.{HasValue};
ghost use Rattle.cabinet_documents.specs.Node.{node_shape, KnowsNode};

use archive_shape::Ref;
use cabinet_archived::{ArchivedKind, ArchivedNode};

/// Returns whether the node is no container. Callers ask this first, since most nodes are leaves.
pub(crate) fn is_leaf(node: Ref<'_, ArchivedNode>) -> bool
    requires { HasValue node_shape KnowsNode node.bytes.now node.pos }
    ensures { IsTrue result ↔ (slice_index node.entry.bytes.now node.entry.pos ≤ 3) }
{
    match ArchivedNode::kind(node) {
        ArchivedKind::Bool(_)
        | ArchivedKind::Int(_)
        | ArchivedKind::Text(_)
        | ArchivedKind::Shared(_) => true,
        ArchivedKind::Maybe(_)
        | ArchivedKind::List(_)
        | ArchivedKind::Ordered(_)
        | ArchivedKind::Hashed(_)
        | ArchivedKind::Kept(_)
        | ArchivedKind::Whole(_) => false,
    }
}
