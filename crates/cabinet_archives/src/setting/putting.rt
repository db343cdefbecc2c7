//! Writing a leaf in the place of a node, in the bytes of an archive.
ghost use Rattle.std.specs.Prelude.{◌≡◌};
ghost use Rattle.archive_forms_values.specs.Parts.{HasValue};
ghost use Rattle.cabinet_text_grammar.specs.Answering.{outcome_there};
ghost use Rattle.cabinet_documents.specs.Node.{node_shape, KnowsNode};
ghost use Rattle.cabinet_text_nodes.specs.Outcomes.{outcome_of};
ghost use Rattle.cabinet_text_nodes.specs.View.{lent_leaf};
ghost use Rattle.cabinet_archives.specs.Found.{OfDocument};
ghost use Rattle.cabinet_archives.specs.Putting.{PutLeaves};

use archive_forms_values::ArchivedString;
use archive_shape::{ArchivedI64, Ref, Seal};
use cabinet_archived::{ArchivedKind, ArchivedNode};
use cabinet_text_nodes::{EditAnswer, LeafRef};

/// Writes a leaf in the place of the node at `pos`, if the node is a leaf of the same kind and, for a text, of the same
/// length.
pub(crate) fn put_leaf(bytes: &mut [u8], pos: usize, leaf: LeafRef<'_>) -> EditAnswer
    requires { HasValue node_shape KnowsNode bytes.old pos }
    ensures answer { OfDocument bytes.old pos
        (λ t. outcome_of result ≡ outcome_there (lent_leaf leaf.entry) t) }
    ensures bytes { PutLeaves bytes.old pos (lent_leaf leaf.entry) (outcome_of result) bytes.new }
{
    match (ArchivedNode::kind(Ref::new(bytes, pos)), leaf) {
        (ArchivedKind::Bool(there), LeafRef::Bool(value)) => {
            let start = there.pos();
            Seal::<bool>::new(bytes, start).write(value);
            EditAnswer::Done
        }
        (ArchivedKind::Int(there), LeafRef::Int(number)) => {
            let start = there.pos();
            Seal::<ArchivedI64>::new(bytes, start).write(number);
            EditAnswer::Done
        }
        (ArchivedKind::Text(there), LeafRef::Text(text)) => {
            if ArchivedString::len(there) != text.len() {
                return EditAnswer::Refused;
            }
            let start = there.pos();
            ArchivedString::write_text(Seal::new(bytes, start), text);
            EditAnswer::Done
        }
        _ => EditAnswer::Refused,
    }
}
