//! Look-ups of keys in archived B-tree maps by the positions of the maps.
ghost use Rattle.std.specs.Prelude.{◌≤◌, ◌*◌};
ghost use Rattle.archive_shape_layout.specs.Shape.Shape.{tree};
ghost use Rattle.archive_forms_values.specs.Parts.{HasValue, both};
ghost use Rattle.archive_btree_maps.specs.Maps.{IsMapAt};
ghost use Rattle.archive_btree_maps.specs.Calls.Searching.{AnswersCounted, AnswersKeyCounted, FindsAmong, FindsPlace, LooksUpPlace, MaySearch, SearchesTo};
ghost use Rattle.archive_btree_maps.specs.Lookups.{ComparesAt};

use crate::nodes::{EntryAt, search_counted};
use crate::walking::root::root_at;
use archive_shape::{ArchivedKey, Portable, Ref};
use std::cmp::Ordering;

/// Searches the map at `pos`, and returns the entry with the number of keys that were compared, which stops at
/// `usize::MAX`. `compare` returns how the query compares with the key at a position.
pub fn search_map<K: Portable, V: Portable, F: Fn(usize) -> Ordering, const E: usize>(
    bytes: &[u8],
    pos: usize,
    compare: &F,
) -> (Option<EntryAt>, usize)
    requires has { HasValue (tree E K.shape V.shape) (both K.knows V.knows) bytes.now pos }
    requires callable { MaySearch E K.shape V.shape bytes.now pos F.pre compare.now }
    ensures found { FindsAmong (IsMapAt bytes.now E K.shape V.shape pos) F.post compare.now result.0 }
    ensures descends { SearchesTo (IsMapAt bytes.now E K.shape V.shape pos) F.post compare.now result.0 }
    ensures answers { AnswersCounted (IsMapAt bytes.now E K.shape V.shape pos) F.post compare.now result }
    ensures few { result.1 ≤ 32 * E }
{
    match root_at::<K, V, E>(bytes, pos) {
        Some(root) => search_counted(bytes, root.pos, root.layout, compare),
        None => (None, 0),
    }
}

/// Searches the map at `pos` for a key, and returns the entry with the number of keys that were compared, which stops
/// at `usize::MAX`.
pub fn search_key<Q, K: ArchivedKey<Q>, V: Portable, const E: usize>(
    bytes: &[u8],
    pos: usize,
    query: &Q,
) -> (Option<EntryAt>, usize)
    requires has { HasValue (tree E K.shape V.shape) (both K.knows V.knows) bytes.now pos }
    ensures found { FindsPlace E K.shape V.shape K.key_of K.order bytes.now pos query.now result.0 }
    ensures descends { LooksUpPlace E K.shape V.shape K.key_of K.order bytes.now pos query.now result.0 }
    ensures answers { AnswersKeyCounted E K.shape V.shape K.key_of K.order bytes.now pos query.now result }
    ensures few { result.1 ≤ 32 * E }
{
    let compare = |at: usize| -> Ordering
        requires { K.is_key bytes.now at }
        ensures { ComparesAt K.key_of K.order bytes.entry.now query.entry.now at result }
    { K::compare(&Ref::new(bytes, at), query).reverse() };
    search_map::<K, V, _, E>(bytes, pos, &compare)
}
