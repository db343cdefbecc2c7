//! Checks whether two archived hash maps are equal.
ghost use Rattle.archive_hash_maps.specs.Maps.{HasMap};
ghost use Rattle.archive_hash_maps.specs.Calls.Equal.{MapsAlike, MapsUnlike};

use crate::map::ArchivedHashMap;
use crate::walking::has_equal;
use archive_forms_comparing::{ArchivedEq, ArchivedHash};
use archive_shape::Ref;
use std::hash::Hasher;

impl<K: ArchivedHash, V: ArchivedEq, H: Hasher + Default + Drop> ArchivedHashMap<K, V, H> {
    /// Returns whether two maps are equal: whether they have the same number of entries, and each key of the first map
    /// has an equal value in the second.
    pub fn equals(
        this: Ref<'_, ArchivedHashMap<K, V, H>>,
        other: Ref<'_, ArchivedHashMap<K, V, H>>,
    ) -> bool
        requires this { HasMap K.shape V.shape K.knows V.knows this }
        requires other { HasMap K.shape V.shape K.knows V.knows other }
        ensures equal { MapsAlike H.Default H.Hasher K.hashed K.equal K.Portable V.equal V.Portable this.entry other.entry result }
        ensures unequal { MapsUnlike H.Default H.Hasher K.hashed K.equal K.Portable V.equal V.Portable this.entry other.entry result }
    {
        if ArchivedHashMap::len(this) != ArchivedHashMap::len(other) {
            return false;
        }
        for entry in ArchivedHashMap::iter(this) {
            if !has_equal::<K, V, H>(other.bytes, other.pos, &entry) {
                return false;
            }
        }
        true
    }
}
