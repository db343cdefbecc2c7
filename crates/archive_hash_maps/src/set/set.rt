//! The type of archived hash sets, its layout and its length.
ghost use Rattle.std.specs.Prelude.{◌≡◌, ◌++◌, ◌↔◌, [], length, All, IsTrue};
ghost use Rattle.std.proofs.Common.{refl, lit<, lit≤};
ghost use Rattle.archive_shape_layout.proofs.Naming.{first_types};
ghost use Rattle.archive_forms_values.specs.Parts.{HasValue};
ghost use Rattle.archive_hash_maps.specs.Tables.{Buckets, full_places};
ghost use Rattle.archive_hash_maps.specs.Places.{item_at};
ghost use Rattle.archive_hash_maps.specs.Sets.{IsSet, set_shape, set_knows, HasSet};
ghost use Rattle.archive_hash_maps.specs.Calls.Lists.{ListsElements};

use crate::map::{ArchivedHashMap, Keys};
use archive_shape::{ArchiveContext, CheckBytes, Error, NoUndef, Portable, Ref, Shape};
use std::alloc::{AllocError, Global};
use std::marker::PhantomData;

/// An archived set: a table of its keys, whose places follow from their hashes by the hasher `H`. It has the bytes of a
/// map of its keys to `()`.
#[derive_where(Clone, Copy)]
pub struct ArchivedHashSet<K, H> {
    pub of: PhantomData<(K, H)>,
}

impl<K, H> NoUndef for ArchivedHashSet<K, H> {}

impl<K: Portable, H> Portable for ArchivedHashSet<K, H> {
    ghost SIZE = { 12 };

    ghost ALIGN = { 4 };

    ghost shape = { set_shape K.shape };

    ghost knows = { set_knows K.knows };

    ghost named = { K.named ++ [] };

    const SIZE: usize = 12;

    const ALIGN: usize = 4;

    fn shape(alloc: Global) -> Result<Shape, AllocError> {
        ArchivedHashMap::<K, (), H>::shape(alloc)
    }

    ghost sized = { refl };

    ghost aligned = { refl };

    ghost aligns = { (lit< tt, lit≤ tt) };

    ghost known = { λ names has. (K.known names (first_types names K.named [] has), tt) };
}

impl<C: ArchiveContext, K: CheckBytes<C>, H> CheckBytes<C> for ArchivedHashSet<K, H> {
    fn check(alloc: Global, bytes: &[u8], pos: usize, context: &mut C) -> Result<(), Error> {
        ArchivedHashMap::<K, (), H>::check(alloc, bytes, pos, context)
    }
}

/// An iterator over the keys by ascending place. Its view is the list of the keys that are left.
pub type Iter<'a, K> = Keys<'a, K, ()>;

/// Returns the set as a map of its keys to `()`.
pub(crate) fn as_map<'a, K, H>(
    this: Ref<'a, ArchivedHashSet<K, H>>,
) -> Ref<'a, ArchivedHashMap<K, (), H>>
    ensures { result ≡ item_at this.entry.bytes this.entry.pos }
{
    Ref::new(this.bytes, this.pos)
}

impl<K: Portable, H> ArchivedHashSet<K, H> {
    /// Returns the number of keys.
    pub fn len(this: Ref<'_, ArchivedHashSet<K, H>>) -> usize
        requires { HasSet K.shape K.knows this.bytes.now this.pos }
        ensures { (b : Buckets) → IsSet K.shape this.entry b → result ≡ length (full_places b) }
    {
        ArchivedHashMap::len(as_map(this))
    }

    /// Returns whether the set has no keys.
    pub fn is_empty(this: Ref<'_, ArchivedHashSet<K, H>>) -> bool
        requires { HasSet K.shape K.knows this.bytes.now this.pos }
        ensures { (b : Buckets) → IsSet K.shape this.entry b → IsTrue result ↔ (full_places b ≡ []) }
    {
        ArchivedHashMap::is_empty(as_map(this))
    }

    /// Returns the keys by ascending place.
    pub fn iter<'a>(this: Ref<'a, ArchivedHashSet<K, H>>) -> Iter<'a, K>
        requires { HasSet K.shape K.knows this.bytes.now this.pos }
        ensures there { All (λ r. HasValue K.shape K.knows r.bytes.now r.pos) result }
        ensures keys { ListsElements K.shape this.entry result }
    {
        ArchivedHashMap::keys(as_map(this))
    }
}
