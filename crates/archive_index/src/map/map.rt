//! The type of archived index maps, its layout, its check and its length.
ghost use Rattle.std.specs.Prelude.{◌≡◌, ◌++◌, ◌↔◌, ◌+◌, ◌≤◌, length, ⊤, IsTrue};
ghost use Rattle.std.proofs.Common.{refl, lit<, lit≤};
ghost use Rattle.archive_shape_layout.specs.Shape.Shape.{index_map, table};
ghost use Rattle.archive_shape.specs.Checks.{Moves};
ghost use Rattle.archive_shape.specs.Kept.{IsWithin};
ghost use Rattle.archive_shape_layout.proofs.Naming.{first_types, other_types};
ghost use Rattle.archive_forms_values.specs.Parts.{HasValue, both};
ghost use Rattle.archive_index.specs.Maps.{IndexMap, IsMap, HasMap, count_of};
ghost use Rattle.archive_forms_laws.specs.Sample.{number_shape};
ghost use Rattle.archive_index.specs.Calls.Checking.{ChecksMap};

use crate::check_index_map_each;
use archive_forms_values::Entry;
use archive_hash::{ArchivedHashTable, number_at};
use archive_shape::{
    ArchiveContext, ArchivedU32, CheckBytes, Error, NoUndef, Portable, Ref, Shape,
};
use std::alloc::{AllocError, Global};
use std::marker::PhantomData;

/// An archived map that keeps the order of its entries: a table of their numbers, whose places follow from the hashes of
/// the keys by the hasher `H`, and an offset of four bytes that leads to the entries. Without entries both offsets lead to
/// nothing.
#[derive_where(Clone, Copy)]
pub struct ArchivedIndexMap<K, V, H> {
    pub of: PhantomData<(K, V, H)>,
}

impl<K, V, H> NoUndef for ArchivedIndexMap<K, V, H> {}

impl<K: Portable, V: Portable, H> Portable for ArchivedIndexMap<K, V, H> {
    ghost SIZE = { 16 };

    ghost ALIGN = { 4 };

    ghost shape = { index_map K.shape V.shape };

    ghost knows = { both K.knows V.knows };

    ghost named = { K.named ++ V.named };

    const SIZE: usize = 16;

    const ALIGN: usize = 4;

    fn shape(alloc: Global) -> Result<Shape, AllocError> {
        Ok(Shape::IndexMap {
            key: Box::new(alloc, K::shape(alloc)?)?,
            value: Box::new(alloc, V::shape(alloc)?)?,
        })
    }

    ghost sized = { refl };

    ghost aligned = { refl };

    ghost aligns = { (lit< tt, lit≤ tt) };

    ghost known = { λ names has. (
      K.known names (first_types names K.named V.named has),
      V.known names (other_types names K.named V.named has),
    ) };
}

impl<C: ArchiveContext, K: CheckBytes<C>, V: CheckBytes<C>, H> CheckBytes<C>
    for ArchivedIndexMap<K, V, H> {
    fn check(alloc: Global, bytes: &[u8], pos: usize, context: &mut C) -> Result<(), Error> {
        let this: Ref<'_, ArchivedIndexMap<K, V, H>> = Ref::new(bytes, pos);
        ArchivedIndexMap::verify(this, alloc, context)
    }
}

impl<K, V, H> ArchivedIndexMap<K, V, H> {
    /// Checks what the own bytes of the map lead to, of which any are legal: the table of the entries' numbers, and the
    /// entries. It is all of the map's check, with the errors of [`check_index_map_each`], where the step is the check of
    /// an entry. If there are no entries, nothing is checked.
    pub fn verify<C: ArchiveContext>(
        this: Ref<'_, ArchivedIndexMap<K, V, H>>,
        alloc: Global,
        context: &mut C,
    ) -> Result<(), Error>
    where
        K: CheckBytes<C>,
        V: CheckBytes<C>,
        requires fits { this.pos + 16 ≤ length this.bytes.now }
        requires range { IsWithin (C.kept context.old) (length this.bytes.now) }
        ensures moves { Moves (C.kept context.old) result (C.kept context.new) }
        ensures exact { ChecksMap C.kept K.Portable V.Portable this.entry context.old result context.new }
    {
        let bytes = this.bytes;
        check_index_map_each::<Entry<K, V>, C, _>(
            bytes,
            this.pos,
            context,
            |c: &mut C, p: usize| Entry::<K, V>::check(alloc, bytes, p, c),
        )
    }
}

impl<K: Portable, V: Portable, H> ArchivedIndexMap<K, V, H> {
    /// Returns the table of the entries' numbers.
    pub fn table<'a>(
        this: Ref<'a, ArchivedIndexMap<K, V, H>>,
    ) -> Ref<'a, ArchivedHashTable<ArchivedU32>>
        requires { HasMap K.shape V.shape K.knows V.knows this }
        ensures bytes { result.bytes ≡ this.entry.bytes }
        ensures pos { result.pos ≡ this.entry.pos }
        ensures there { HasValue (table number_shape) (λ names. ⊤) result.bytes.now result.pos }
    {
        Ref::new(this.bytes, this.pos)
    }

    /// Returns the number of entries.
    pub fn len(this: Ref<'_, ArchivedIndexMap<K, V, H>>) -> usize
        requires { HasMap K.shape V.shape K.knows V.knows this }
        ensures { (m : IndexMap) → IsMap K.shape V.shape this.entry m → result ≡ count_of m }
    {
        number_at(this.bytes, this.pos + 4)
    }

    /// Returns whether the map has no entries.
    pub fn is_empty(this: Ref<'_, ArchivedIndexMap<K, V, H>>) -> bool
        requires { HasMap K.shape V.shape K.knows V.knows this }
        ensures { (m : IndexMap) → IsMap K.shape V.shape this.entry m → IsTrue result ↔ (count_of m ≡ 0) }
    {
        ArchivedIndexMap::len(this) == 0
    }
}
