//! The head of an archived node.
ghost use Rattle.std.specs.Prelude.{◌≡◌};
ghost use Rattle.archive_forms_values.specs.Parts.{HasValue};
ghost use Rattle.cabinet_text_grammar.specs.Answering.{head_of};
ghost use Rattle.cabinet_documents.specs.Node.{node_shape, KnowsNode};
ghost use Rattle.cabinet_text_nodes.specs.View.{lent_item};
ghost use Rattle.cabinet_archives.specs.Found.{OfDocument};

use crate::maps::{HashedMap, KeptMap, OrderedMap};
use archive_forms_rc::ArchivedRcStr;
use archive_forms_values::{ArchivedOption, ArchivedString, ArchivedVec, native_of};
use archive_shape::Ref;
use cabinet_archived::{ArchivedKind, ArchivedNode};
use cabinet_text_nodes::{HeadRef, LeafRef};

/// Returns the head of a node, which is what the first line of the node's text states.
pub fn head<'a>(node: Ref<'a, ArchivedNode>) -> HeadRef<'a>
    requires { HasValue node_shape KnowsNode node.bytes.now node.pos }
    ensures { OfDocument node.entry.bytes.now node.entry.pos (λ t. lent_item result ≡ head_of t) }
{
    match ArchivedNode::kind(node) {
        ArchivedKind::Bool(value) => HeadRef::Leaf(LeafRef::Bool(native_of(value))),
        ArchivedKind::Int(number) => HeadRef::Leaf(LeafRef::Int(native_of(number))),
        ArchivedKind::Text(text) => HeadRef::Leaf(LeafRef::Text(ArchivedString::as_str(text))),
        ArchivedKind::Shared(text) => HeadRef::Shared(ArchivedRcStr::get(text)),
        ArchivedKind::Maybe(maybe) => {
            if ArchivedOption::is_none(maybe) {
                HeadRef::None
            } else {
                HeadRef::Some
            }
        }
        ArchivedKind::List(list) => HeadRef::List(ArchivedVec::len(list) as u64),
        ArchivedKind::Ordered(map) => HeadRef::Ordered(OrderedMap::len(map) as u64),
        ArchivedKind::Hashed(map) => HeadRef::Hashed(HashedMap::len(map) as u64),
        ArchivedKind::Kept(map) => HeadRef::Kept(KeptMap::len(map) as u64),
        ArchivedKind::Whole(_) => HeadRef::Whole,
    }
}
