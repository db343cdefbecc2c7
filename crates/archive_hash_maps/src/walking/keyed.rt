//! Look-ups of the entries of maps by their keys.
ghost use Rattle.std.specs.Prelude.{◌≡◌, IfSome};
ghost use Rattle.archive_shape_layout.specs.Shape.Shapes.{no_shapes};
ghost use Rattle.archive_forms_values.specs.Fields.{field_position};
ghost use Rattle.archive_hash_maps.specs.Maps.{KeySays, key_at};
ghost use Rattle.archive_hash_maps.specs.Calls.Entries.{HasMapAt, HasEntryAt};
ghost use Rattle.archive_hash_maps.specs.Calls.Keys.{FindsKey, FindsKeyBy};
ghost use Rattle.archive_hash_maps.specs.Calls.Tables.{MayCall};

use crate::walking::hashed::HashedKey;
use crate::walking::lookup::search_table;
use archive_forms_values::Entry;
use archive_hash_probing::{Group, hash_value};
use archive_shape::{Portable, Ref};
use std::hash::{Hash, Hasher};

/// Returns the position of the entry of a key in the map at `pos`, if the map has the key.
pub fn search_key<Q: Hash, K: HashedKey<Q>, V: Portable, H: Hasher + Default + Drop>(
    bytes: &[u8],
    pos: usize,
    query: &Q,
) -> Option<usize>
    requires has { HasMapAt K.shape V.shape K.knows V.knows bytes.now pos }
    ensures there { IfSome result (HasEntryAt K.shape V.shape K.knows V.knows bytes.entry.now) }
    ensures answers { FindsKey H.Default H.Hasher Q.hash_input K.key_of K.order K.shape V.shape bytes.entry.now pos query.now result }
{
    let accepts = |at: usize| -> bool
        requires { K.is_key bytes.now at }
        ensures { KeySays K.key_of K.order bytes.entry.now query.entry.now at result }
    { K::same(&Ref::new(bytes, at), query) };
    search_table::<Entry<K, V>, Group, _>(bytes, pos, hash_value::<Q, H>(query), &accepts).0
}

/// Returns the position of the value of the entry at `at`.
pub fn value_position<K: Portable, V: Portable>(bytes: &[u8], at: usize) -> usize
    requires { HasEntryAt K.shape V.shape K.knows V.knows bytes.now at }
    ensures { result ≡ field_position K.shape no_shapes V.shape at }
{
    Entry::value(Ref::<Entry<K, V>>::new(bytes, at)).pos
}

/// Returns the position of the entry that has the query's hash and whose key the caller's comparison accepts, in the
/// map at `pos`.
pub fn search_with<
    Q: Hash,
    K: Portable,
    V: Portable,
    H: Hasher + Default + Drop,
    F: Fn(&Q, Ref<'_, K>) -> bool,
>(bytes: &[u8], pos: usize, query: &Q, accepts: &F) -> Option<usize>
    requires has { HasMapAt K.shape V.shape K.knows V.knows bytes.now pos }
    requires callable { MayCall K.shape K.knows bytes (F.pre accepts.now query) }
    ensures there { IfSome result (HasEntryAt K.shape V.shape K.knows V.knows bytes.entry.now) }
    ensures answers { FindsKeyBy H.Default H.Hasher Q.hash_input (F.post accepts.now) K.shape V.shape bytes.entry pos query.entry result }
{
    let hash = hash_value::<Q, H>(query);
    let accepts_at = |at: usize| -> bool
        requires { F.pre accepts.now query (key_at bytes at) }
        ensures { F.post accepts.entry.now query.entry (key_at bytes.entry at) result }
    { accepts(query, Ref::new(bytes, at)) };
    search_table::<Entry<K, V>, Group, _>(bytes, pos, hash, &accepts_at).0
}
