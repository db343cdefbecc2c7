//! The type of archived hash maps, its layout and its length.
ghost use Rattle.std.specs.Prelude.{◌≡◌, ◌++◌, ◌↔◌, [], length, IsTrue};
ghost use Rattle.std.proofs.Common.{refl, lit<, lit≤};
ghost use Rattle.archive_shape_layout.specs.Shape.Shape.{table};
ghost use Rattle.archive_shape_layout.proofs.Naming.{first_types, other_types};
ghost use Rattle.archive_forms_values.specs.Tuples.{tuple2};
ghost use Rattle.archive_forms_values.specs.Parts.{both};
ghost use Rattle.archive_hash_maps.specs.Tables.{Buckets, full_places};
ghost use Rattle.archive_hash_maps.specs.Maps.{IsMap, HasMap};

use crate::map::ArchivedHashTable;
use archive_forms_values::Entry;
use archive_shape::{ArchiveContext, CheckBytes, Error, NoUndef, Portable, Ref, Shape};
use std::alloc::{AllocError, Global};
use std::marker::PhantomData;

/// An archived map: a table of its entries, whose places follow from the hashes of their keys by the hasher `H`. It has
/// twelve own bytes, as its table does.
#[derive_where(Clone, Copy)]
pub struct ArchivedHashMap<K, V, H> {
    pub of: PhantomData<(K, V, H)>,
}

impl<K, V, H> NoUndef for ArchivedHashMap<K, V, H> {}

impl<K: Portable, V: Portable, H> Portable for ArchivedHashMap<K, V, H> {
    ghost SIZE = { 12 };

    ghost ALIGN = { 4 };

    ghost shape = { table (tuple2 K.shape V.shape) };

    ghost knows = { both K.knows V.knows };

    ghost named = { K.named ++ V.named };

    const SIZE: usize = 12;

    const ALIGN: usize = 4;

    fn shape(alloc: Global) -> Result<Shape, AllocError> {
        ArchivedHashTable::<Entry<K, V>>::shape(alloc)
    }

    ghost sized = { refl };

    ghost aligned = { refl };

    ghost aligns = { (lit< tt, lit≤ tt) };

    ghost known = { λ names has. (
      K.known names (first_types names K.named V.named has),
      V.known names (other_types names K.named V.named has),
    ) };
}

impl<C: ArchiveContext, K: CheckBytes<C>, V: CheckBytes<C>, H> CheckBytes<C>
    for ArchivedHashMap<K, V, H> {
    fn check(alloc: Global, bytes: &[u8], pos: usize, context: &mut C) -> Result<(), Error> {
        ArchivedHashTable::<Entry<K, V>>::check(alloc, bytes, pos, context)
    }
}

impl<K: Portable, V: Portable, H> ArchivedHashMap<K, V, H> {
    /// Returns the table of the entries.
    pub fn table<'a>(
        this: Ref<'a, ArchivedHashMap<K, V, H>>,
    ) -> Ref<'a, ArchivedHashTable<Entry<K, V>>>
        ensures bytes { result.bytes ≡ this.entry.bytes }
        ensures pos { result.pos ≡ this.entry.pos }
    {
        Ref::new(this.bytes, this.pos)
    }

    /// Returns the number of entries.
    pub fn len(this: Ref<'_, ArchivedHashMap<K, V, H>>) -> usize
        requires { HasMap K.shape V.shape K.knows V.knows this }
        ensures { (b : Buckets) → IsMap K.shape V.shape this.entry b → result ≡ length (full_places b) }
    {
        ArchivedHashTable::len(ArchivedHashMap::table(this))
    }

    /// Returns whether the map has no entries.
    pub fn is_empty(this: Ref<'_, ArchivedHashMap<K, V, H>>) -> bool
        requires { HasMap K.shape V.shape K.knows V.knows this }
        ensures { (b : Buckets) → IsMap K.shape V.shape this.entry b
            → IsTrue result ↔ (full_places b ≡ []) }
    {
        ArchivedHashTable::is_empty(ArchivedHashMap::table(this))
    }

    /// Returns the number of places of the table.
    pub fn capacity(this: Ref<'_, ArchivedHashMap<K, V, H>>) -> usize
        requires { HasMap K.shape V.shape K.knows V.knows this }
        ensures { (b : Buckets) → IsMap K.shape V.shape this.entry b → result ≡ b.cap }
    {
        ArchivedHashTable::capacity(ArchivedHashMap::table(this))
    }
}
