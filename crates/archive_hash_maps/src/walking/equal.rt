//! Checks whether the entries of one map have equal entries in another.
ghost use Rattle.archive_forms_values.specs.Parts.{HasValue};
ghost use Rattle.archive_hash_maps.specs.Equal.{EqualSays};
ghost use Rattle.std.specs.Prelude.{IfSome};
ghost use Rattle.archive_hash_maps.specs.Calls.Entries.{HasMapAt, HasEntryAt};
ghost use Rattle.archive_hash_maps.specs.Calls.Equal.{FindsEqualEntry};
ghost use Rattle.archive_hash_maps.specs.Calls.Keys.{FindsEqual};

use crate::walking::keyed::value_position;
use crate::walking::lookup::search_table;
use archive_forms_comparing::{ArchivedEq, ArchivedHash};
use archive_forms_values::Entry;
use archive_hash_probing::Group;
use archive_shape::{Portable, Ref};
use std::hash::Hasher;

/// Returns the position of the entry whose key is equal to an archived key, in the map at `pos`.
pub fn search_equal<K: ArchivedHash, V: Portable, H: Hasher + Default + Drop>(
    bytes: &[u8],
    pos: usize,
    key: &Ref<'_, K>,
) -> Option<usize>
    requires has { HasMapAt K.shape V.shape K.knows V.knows bytes.now pos }
    requires key { HasValue K.shape K.knows key.now.bytes.now key.now.pos }
    ensures there { IfSome result (HasEntryAt K.shape V.shape K.knows V.knows bytes.entry.now) }
    ensures answers { FindsEqual H.Default H.Hasher K.hashed K.equal K.shape V.shape K.knows bytes.entry.now pos key.now result }
{
    let mut state = H::default();
    K::hash(key, &mut state);
    let hash = state.finish();
    let accepts = |at: usize| -> bool
        requires item { HasValue K.shape K.knows bytes.now at }
        requires key { HasValue K.shape K.knows key.now.bytes.now key.now.pos }
        ensures { EqualSays K.shape K.knows K.equal bytes.entry.now key.entry.now at result }
    { K::eq(&Ref::new(bytes, at), key) };
    search_table::<Entry<K, V>, Group, _>(bytes, pos, hash, &accepts).0
}

/// Returns whether the map at `pos` has an entry that is equal to `entry`.
pub fn has_equal<K: ArchivedHash, V: ArchivedEq, H: Hasher + Default + Drop>(
    bytes: &[u8],
    pos: usize,
    entry: &(Ref<'_, K>, Ref<'_, V>),
) -> bool
    requires has { HasMapAt K.shape V.shape K.knows V.knows bytes.now pos }
    requires key { HasValue K.shape K.knows entry.now.0.bytes.now entry.now.0.pos }
    requires value { HasValue V.shape V.knows entry.now.1.bytes.now entry.now.1.pos }
    ensures { FindsEqualEntry H.Default H.Hasher K.hashed K.equal K.Portable V.equal V.Portable bytes.entry.now pos entry.now result }
{
    match search_equal::<K, V, H>(bytes, pos, &entry.0) {
        Some(at) => V::eq(
            &entry.1,
            &Ref::new(bytes, value_position::<K, V>(bytes, at)),
        ),
        None => false,
    }
}
