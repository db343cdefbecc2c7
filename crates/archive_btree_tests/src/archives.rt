//! Archives of maps of numbers, by their bytes.
ghost use Rattle.std.specs.Prelude.{◌≡◌, IfSome, [], false, ⊤};
ghost use Rattle.std.specs.Int.{w32};
ghost use Rattle.archive_shape_layout.specs.Shape.Shape.{number};
ghost use Rattle.archive_forms_values.specs.Parts.{HasValue};

use archive_btree_maps::ArchivedBTreeMap;
use archive_core_validation::{HighValidator, access};
use archive_forms_values::{ArchivedString, native_of};
use archive_shape::{ArchivedU32, CheckBytes, Ref};
use std::alloc::Global;
use std::cmp::Ordering;

/// A map of numbers with at most five entries in a node. A leaf has twelve words of four bytes: its kind, five keys, five
/// values and its length; an inner node has six pointers in place of the length.
pub(crate) type Numbers = ArchivedBTreeMap<ArchivedU32, ArchivedU32, 5>;

/// The bytes of the map without entries.
pub(crate) const EMPTY: &[u8; 8] = b"\x01\0\0\0\0\0\0\0";

/// The bytes of the map from 7 to 11: a leaf, and the map, whose root is 48 bytes before it.
pub(crate) const ONE_PAIR: &[u8; 56] =
    b"\0\0\0\0\x07\0\0\0\0\0\0\0\0\0\0\0\0\0\0\0\0\0\0\0\x0b\0\0\0\0\0\0\0\0\0\0\0\0\0\0\0\0\0\0\0\x01\0\0\0\xd0\xff\xff\xff\x01\0\0\0";

/// The bytes of the map from 1 to 6 to 11 to 16: a leaf of the first entry, and an inner node of the others.
pub(crate) const SIX_PAIRS: &[u8; 124] =
    b"\0\0\0\0\x01\0\0\0\0\0\0\0\0\0\0\0\0\0\0\0\0\0\0\0\x0b\0\0\0\0\0\0\0\0\0\0\0\0\0\0\0\0\0\0\0\x01\0\0\0\x01\0\0\0\x02\0\0\0\x03\0\0\0\x04\0\0\0\x05\0\0\0\x06\0\0\0\x0c\0\0\0\x0d\0\0\0\x0e\0\0\0\x0f\0\0\0\x10\0\0\0\xa4\xff\xff\xff\x01\0\0\0\x01\0\0\0\x01\0\0\0\x01\0\0\0\x01\0\0\0\xbc\xff\xff\xff\x06\0\0\0";

/// The bytes of a map from 1 to 5 to 11 to 15: an inner node, whose greater child is a leaf without entries.
pub(crate) const EMPTY_LEAF: &[u8; 124] =
    b"\0\0\0\0\0\0\0\0\0\0\0\0\0\0\0\0\0\0\0\0\0\0\0\0\0\0\0\0\0\0\0\0\0\0\0\0\0\0\0\0\0\0\0\0\0\0\0\0\x01\0\0\0\x01\0\0\0\x02\0\0\0\x03\0\0\0\x04\0\0\0\x05\0\0\0\x0b\0\0\0\x0c\0\0\0\x0d\0\0\0\x0e\0\0\0\x0f\0\0\0\x01\0\0\0\x01\0\0\0\x01\0\0\0\x01\0\0\0\x01\0\0\0\x90\xff\xff\xff\xbc\xff\xff\xff\x05\0\0\0";

/// A map from texts to numbers with at most five entries in a node. A leaf has 17 words: its kind, five keys of two
/// words, five values and its length.
pub(crate) type Texts = ArchivedBTreeMap<ArchivedString, ArchivedU32, 5>;

/// The bytes of the map from bar, bat, baz and foo to 20, 80, 40 and 10: a leaf, and the map, whose root is 68 bytes
/// before it. The values are the four words from position 44 on.
pub(crate) const FOUR_TEXTS: &[u8; 76] =
    b"\0\0\0\0bar\xff\xff\xff\xff\xffbat\xff\xff\xff\xff\xffbaz\xff\xff\xff\xff\xfffoo\xff\xff\xff\xff\xff\0\0\0\0\0\0\0\0\x14\0\0\0P\0\0\0(\0\0\0\x0a\0\0\0\0\0\0\0\x04\0\0\0\xbc\xff\xff\xff\x04\0\0\0";

/// Returns how a number compares with an archived one.
pub(crate) fn compare_numbers(query: &u32, key: Ref<'_, ArchivedU32>) -> Ordering
    requires { HasValue (number w32 false) (λ _. ⊤) key.bytes.now key.pos }
{
    query.cmp(&native_of(key))
}

/// Checks bytes and returns their root, or `None` if they are refused.
pub(crate) fn root_of<T: CheckBytes<HighValidator>>(
    alloc: Global,
    bytes: &[u8],
) -> Option<Ref<'_, T>>
    requires { T.knows [] }
    ensures { IfSome result (λ r. (r.bytes ≡ bytes.entry) × HasValue T.shape T.knows bytes.now r.pos) }
{
    match access::<T>(alloc, bytes) {
        Ok(root) => Some(root),
        Err(_) => None,
    }
}
