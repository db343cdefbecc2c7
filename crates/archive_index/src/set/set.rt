//! The type of archived index sets, its layout, its check, its length and its keys.
ghost use Rattle.std.specs.Prelude.{◌≡◌, ◌++◌, ◌↔◌, ◌+◌, ◌≤◌, [], length, All, IsTrue};
ghost use Rattle.std.proofs.Common.{refl, lit<, lit≤};
ghost use Rattle.archive_shape.specs.Checks.{Moves};
ghost use Rattle.archive_shape.specs.Kept.{IsWithin};
ghost use Rattle.archive_shape_layout.proofs.Naming.{first_types};
ghost use Rattle.archive_forms_values.specs.Parts.{HasValue};
ghost use Rattle.archive_hash_maps.specs.Places.{item_at};
ghost use Rattle.archive_hash_maps.specs.Sets.{set_knows};
ghost use Rattle.archive_index.specs.Maps.{IndexMap, count_of};
ghost use Rattle.archive_index.specs.Sets.{HasSet, IsSet, set_shape};
ghost use Rattle.archive_index.specs.Calls.Checking.{ChecksSet};
ghost use Rattle.archive_index.specs.Calls.Entries.{ListsElements};

use crate::map::{ArchivedIndexMap, Keys};
use archive_shape::{ArchiveContext, CheckBytes, Error, NoUndef, Portable, Ref, Shape};
use std::alloc::{AllocError, Global};
use std::marker::PhantomData;

/// An archived set that keeps the order of its keys. It has the bytes of an index map of its keys to `()`, whose places
/// follow from the hashes of the keys by the hasher `H`.
#[derive_where(Clone, Copy)]
pub struct ArchivedIndexSet<K, H> {
    pub of: PhantomData<(K, H)>,
}

impl<K, H> NoUndef for ArchivedIndexSet<K, H> {}

impl<K: Portable, H> Portable for ArchivedIndexSet<K, H> {
    ghost SIZE = { 16 };

    ghost ALIGN = { 4 };

    ghost shape = { set_shape K.shape };

    ghost knows = { set_knows K.knows };

    ghost named = { K.named ++ [] };

    const SIZE: usize = 16;

    const ALIGN: usize = 4;

    fn shape(alloc: Global) -> Result<Shape, AllocError> {
        ArchivedIndexMap::<K, (), H>::shape(alloc)
    }

    ghost sized = { refl };

    ghost aligned = { refl };

    ghost aligns = { (lit< tt, lit≤ tt) };

    ghost known = { λ names has. (K.known names (first_types names K.named [] has), tt) };
}

impl<C: ArchiveContext, K: CheckBytes<C>, H> CheckBytes<C> for ArchivedIndexSet<K, H> {
    fn check(alloc: Global, bytes: &[u8], pos: usize, context: &mut C) -> Result<(), Error> {
        let this: Ref<'_, ArchivedIndexSet<K, H>> = Ref::new(bytes, pos);
        ArchivedIndexSet::verify(this, alloc, context)
    }
}

impl<K, H> ArchivedIndexSet<K, H> {
    /// Checks what the own bytes of the set lead to, as [`ArchivedIndexMap::verify`] does for the map of its keys to
    /// `()`.
    pub fn verify<C: ArchiveContext>(
        this: Ref<'_, ArchivedIndexSet<K, H>>,
        alloc: Global,
        context: &mut C,
    ) -> Result<(), Error>
    where
        K: CheckBytes<C>,
        requires fits { this.pos + 16 ≤ length this.bytes.now }
        requires range { IsWithin (C.kept context.old) (length this.bytes.now) }
        ensures moves { Moves (C.kept context.old) result (C.kept context.new) }
        ensures exact { ChecksSet C.kept K.Portable this.entry context.old result context.new }
    {
        ArchivedIndexMap::verify(as_map(this), alloc, context)
    }
}

/// Returns the set as a map of its keys to `()`.
pub(crate) fn as_map<'a, K, H>(
    this: Ref<'a, ArchivedIndexSet<K, H>>,
) -> Ref<'a, ArchivedIndexMap<K, (), H>>
    ensures { result ≡ item_at this.entry.bytes this.entry.pos }
{
    Ref::new(this.bytes, this.pos)
}

impl<K: Portable, H> ArchivedIndexSet<K, H> {
    /// Returns the number of keys.
    pub fn len(this: Ref<'_, ArchivedIndexSet<K, H>>) -> usize
        requires { HasSet K.shape K.knows this }
        ensures { (m : IndexMap) → IsSet K.shape this.entry m → result ≡ count_of m }
    {
        ArchivedIndexMap::len(as_map(this))
    }

    /// Returns whether the set has no keys.
    pub fn is_empty(this: Ref<'_, ArchivedIndexSet<K, H>>) -> bool
        requires { HasSet K.shape K.knows this }
        ensures { (m : IndexMap) → IsSet K.shape this.entry m → IsTrue result ↔ (count_of m ≡ 0) }
    {
        ArchivedIndexMap::is_empty(as_map(this))
    }

    /// Returns the keys in order.
    pub fn iter<'a>(this: Ref<'a, ArchivedIndexSet<K, H>>) -> Keys<'a, K, ()>
        requires { HasSet K.shape K.knows this }
        ensures there { All (λ r. HasValue K.shape K.knows r.bytes.now r.pos) result }
        ensures keys { ListsElements K.shape this.entry result }
    {
        ArchivedIndexMap::keys(as_map(this))
    }
}
