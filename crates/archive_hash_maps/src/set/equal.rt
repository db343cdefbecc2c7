//! Checks whether two archived hash sets are equal.
ghost use Rattle.archive_hash_maps.specs.Sets.{HasSet};
ghost use Rattle.archive_hash_maps.specs.Calls.Equal.{SetsAlike, SetsUnlike};

use crate::map::ArchivedHashMap;
use crate::set::ArchivedHashSet;
use crate::set::set::as_map;
use archive_forms_comparing::ArchivedHash;
use archive_shape::Ref;
use std::hash::Hasher;

impl<K: ArchivedHash, H: Hasher + Default + Drop> ArchivedHashSet<K, H> {
    /// Returns whether two sets are equal: whether they have the same number of keys, and each key of the first has an
    /// equal key in the second.
    pub fn equals(
        this: Ref<'_, ArchivedHashSet<K, H>>,
        other: Ref<'_, ArchivedHashSet<K, H>>,
    ) -> bool
        requires this { HasSet K.shape K.knows this.bytes.now this.pos }
        requires other { HasSet K.shape K.knows other.bytes.now other.pos }
        ensures equal { SetsAlike H.Default H.Hasher K.hashed K.equal K.Portable this.entry other.entry result }
        ensures unequal { SetsUnlike H.Default H.Hasher K.hashed K.equal K.Portable this.entry other.entry result }
    {
        ArchivedHashMap::equals(as_map(this), as_map(other))
    }
}
