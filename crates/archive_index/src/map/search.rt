//! Look-ups of the numbers of entries.
ghost use Rattle.std.specs.Prelude.{◌≡◌, ◌+◌, ◌<◌, ◌≤◌, length};
ghost use Rattle.archive_forms_values.specs.Tuples.{tuple2};
ghost use Rattle.archive_forms_values.specs.Parts.{HasValue, both};
ghost use Rattle.archive_hash_maps.specs.Maps.{KeySays, key_at, entry_at};
ghost use Rattle.archive_index.specs.Maps.{IndexMap, IsMapAt, HasMapAt, count_of};
ghost use Rattle.archive_hash_maps.specs.Calls.Tables.{MayCall};
ghost use Rattle.archive_index.specs.Calls.Search.{named_position, FitsNamed, IsPositionOf, MayCallAtEntries, IsNumberIn, FindsEntry, SearchesKey, SearchesBy};

use crate::map::entries::entries_at;
use archive_forms_values::Entry;
use archive_hash::{HashedKey, number_at, search_table};
use archive_hash_probing::{Group, Scan, hash_value};
use archive_shape::{ArchivedU32, Portable, Ref};
use std::hash::{Hash, Hasher};

/// Returns the position of the entry whose number is the item at `at`. The entries begin at `start`.
fn named_entry<K: Portable, V: Portable>(bytes: &[u8], start: usize, at: usize) -> usize
    requires room { at + 4 ≤ length bytes.now }
    requires fits { FitsNamed K.shape V.shape bytes.now start at }
    ensures { result ≡ named_position K.shape V.shape bytes.entry.now start at }
{
    start + number_at(bytes, at) * Entry::<K, V>::SIZE
}

/// Returns the number of an entry that has the hash `hash` in the map at `pos`, and the number of strides that were
/// searched for it. `accepts` returns whether the entry at a position is the one searched for. The caller chooses the scan
/// `G`, by which the table is searched.
pub fn search_entries<K: Portable, V: Portable, G: Scan, F: Fn(usize) -> bool>(
    bytes: &[u8],
    pos: usize,
    hash: u64,
    accepts: &F,
) -> (Option<usize>, usize)
    requires has { HasMapAt K.shape V.shape K.knows V.knows bytes.now pos }
    requires callable { MayCallAtEntries K.shape V.shape (F.pre accepts.now) bytes.now pos }
    ensures within { IsNumberIn K.shape V.shape bytes.entry.now pos result.0 }
    ensures answers { FindsEntry K.shape V.shape (F.post accepts.now) bytes.entry.now pos hash result }
{
    let (start, _) = entries_at::<K, V>(bytes, pos);
    let accepts_at = |at: usize| -> bool
        requires room { at + 4 ≤ length bytes.now }
        requires fits { FitsNamed K.shape V.shape bytes.now start at }
        requires item { F.pre accepts.now (named_position K.shape V.shape bytes.now start at) }
        ensures { F.post accepts.entry.now (named_position K.shape V.shape bytes.entry.now start at) result }
    { accepts(named_entry::<K, V>(bytes, start, at)) };
    let (found, strides) = search_table::<ArchivedU32, G, _>(bytes, pos, hash, &accepts_at);
    match found {
        Some(at) => (Some(number_at(bytes, at)), strides),
        None => (None, strides),
    }
}

/// Returns the number of the entry of a key in the map at `pos`, if the map has the key.
pub(crate) fn search_key<Q: Hash, K: HashedKey<Q>, V: Portable, H: Hasher + Default + Drop>(
    bytes: &[u8],
    pos: usize,
    query: &Q,
) -> Option<usize>
    requires has { HasMapAt K.shape V.shape K.knows V.knows bytes.now pos }
    ensures within { IsNumberIn K.shape V.shape bytes.entry.now pos result }
    ensures answers { SearchesKey K.HashedKey V.shape H.Default H.Hasher Q.Hash query.now bytes.entry.now
        pos result }
{
    let accepts = |at: usize| -> bool
        requires { K.is_key bytes.now at }
        ensures { KeySays K.key_of K.order bytes.entry.now query.entry.now at result }
    { K::same(&Ref::new(bytes, at), query) };
    search_entries::<K, V, Group, _>(bytes, pos, hash_value::<Q, H>(query), &accepts).0
}

/// Returns the number of the entry that has the query's hash and whose key the caller's comparison accepts, in the map
/// at `pos`.
pub(crate) fn search_with<
    Q: Hash,
    K: Portable,
    V: Portable,
    H: Hasher + Default + Drop,
    F: Fn(&Q, Ref<'_, K>) -> bool,
>(bytes: &[u8], pos: usize, query: &Q, accepts: &F) -> Option<usize>
    requires has { HasMapAt K.shape V.shape K.knows V.knows bytes.now pos }
    requires callable { MayCall K.shape K.knows bytes (F.pre accepts.now query) }
    ensures within { IsNumberIn K.shape V.shape bytes.entry.now pos result }
    ensures answers { SearchesBy K.shape V.shape H.Default H.Hasher Q.Hash (F.post accepts.now) query.entry
        bytes.entry pos result }
{
    let hash = hash_value::<Q, H>(query);
    let accepts_at = |at: usize| -> bool
        requires { F.pre accepts.now query (key_at bytes at) }
        ensures { F.post accepts.entry.now query.entry (key_at bytes.entry at) result }
    { accepts(query, Ref::new(bytes, at)) };
    search_entries::<K, V, Group, _>(bytes, pos, hash, &accepts_at).0
}

/// Returns the position of the entry with a number.
pub(crate) fn entry_at<K: Portable, V: Portable>(bytes: &[u8], pos: usize, index: usize) -> usize
    requires has { HasMapAt K.shape V.shape K.knows V.knows bytes.now pos }
    requires within { (m : IndexMap) → IsMapAt bytes.now K.shape V.shape pos m → index < count_of m }
    ensures stands { IsPositionOf K.shape V.shape bytes.entry.now pos index result }
    ensures there { HasValue (tuple2 K.shape V.shape) (both K.knows V.knows) bytes.entry.now result }
{
    let _len = bytes.len();
    let (start, _) = entries_at::<K, V>(bytes, pos);
    let size = Entry::<K, V>::SIZE;
    start + index * size
}
