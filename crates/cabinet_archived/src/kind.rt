//! The kind of a node, and a reference to its payload.
ghost use Rattle.std.specs.Prelude.{◌≡◌, ℕ, ◌+◌, ◌^◌, ◌<◌, ◌≤◌, length};
ghost use Rattle.archive_forms_values.specs.Parts.{HasValue};
ghost use Rattle.cabinet_documents.specs.Node.{node_shape, KnowsNode};
ghost use Rattle.cabinet_archived.specs.Kind.{IsKindAt};

use crate::{ArchivedNode, tag};
use archive_btree_maps::ArchivedBTreeMap;
use archive_forms_rc::{ArchivedRc, ArchivedRcStr, RcFlavor};
use archive_forms_values::{ArchivedBox, ArchivedOption, ArchivedString, ArchivedVec};
use archive_hash_maps::ArchivedHashMap;
use archive_hash_probing::FxHasher64;
use archive_index::ArchivedIndexMap;
use archive_shape::{ArchivedI64, Ref};

/// A reference to the payload of a node, by its kind.
#[derive(Clone, Copy)]
pub enum ArchivedKind<'a> {
    /// A truth value: tag 0, at byte 1 of the node.
    Bool(Ref<'a, bool>),
    /// A number: tag 1, at byte 8.
    Int(Ref<'a, ArchivedI64>),
    /// A text: tag 2, at byte 4.
    Text(Ref<'a, ArchivedString>),
    /// A shared text: tag 3, at byte 4.
    Shared(Ref<'a, ArchivedRcStr<RcFlavor>>),
    /// An option: tag 4, at byte 4.
    Maybe(Ref<'a, ArchivedOption<ArchivedBox<ArchivedNode>>>),
    /// A list: tag 5, at byte 4.
    List(Ref<'a, ArchivedVec<ArchivedNode>>),
    /// An ordered map: tag 6, at byte 4.
    Ordered(Ref<'a, ArchivedBTreeMap<ArchivedString, ArchivedNode, 5>>),
    /// A hashed map: tag 7, at byte 4.
    Hashed(Ref<'a, ArchivedHashMap<ArchivedString, ArchivedNode, FxHasher64>>),
    /// A map that keeps the order of its pairs: tag 8, at byte 4.
    Kept(Ref<'a, ArchivedIndexMap<ArchivedString, ArchivedNode, FxHasher64>>),
    /// A whole: tag 9, at byte 4.
    Whole(Ref<'a, ArchivedRc<ArchivedNode, RcFlavor>>),
}

impl ArchivedNode {
    /// Returns the kind, with a reference to the payload. Reads only the tag.
    pub fn kind<'a>(this: Ref<'a, ArchivedNode>) -> ArchivedKind<'a>
        requires { HasValue node_shape KnowsNode this.bytes.now this.pos }
        ensures { IsKindAt this.entry.bytes this.entry.pos result }
    {
        let Ref { bytes, pos, .. } = this;
        let _len = bytes.len();
        match bytes[pos] {
            tag::BOOL => ArchivedKind::Bool(Ref::new(bytes, pos + tag::BOOL_OFFSET)),
            tag::INT => ArchivedKind::Int(Ref::new(bytes, pos + tag::INT_OFFSET)),
            tag::TEXT => ArchivedKind::Text(Ref::new(bytes, pos + tag::OFFSET)),
            tag::SHARED => ArchivedKind::Shared(Ref::new(bytes, pos + tag::OFFSET)),
            tag::MAYBE => ArchivedKind::Maybe(Ref::new(bytes, pos + tag::OFFSET)),
            tag::LIST => ArchivedKind::List(Ref::new(bytes, pos + tag::OFFSET)),
            tag::ORDERED => ArchivedKind::Ordered(Ref::new(bytes, pos + tag::OFFSET)),
            tag::HASHED => ArchivedKind::Hashed(Ref::new(bytes, pos + tag::OFFSET)),
            tag::KEPT => ArchivedKind::Kept(Ref::new(bytes, pos + tag::OFFSET)),
            _ => ArchivedKind::Whole(Ref::new(bytes, pos + tag::OFFSET)),
        }
    }
}
