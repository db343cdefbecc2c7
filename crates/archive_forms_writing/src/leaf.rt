//! The archiving of numbers, truth values and chars.
ghost use Rattle.std.specs.Prelude.{◌≡◌, length};
ghost use Rattle.archive_shape_layout.specs.Numbers.{Reads};
ghost use Rattle.archive_forms_laws.specs.Forms.{leaf_spelling};
ghost use Rattle.archive_shape_canonical.specs.Canonical.{AreBytes};
ghost use Rattle.archive_forms_laws.proofs.Leaves.{leaf_spells};
ghost use Rattle.archive_forms_laws.specs.Serializing.{CanResolveAt, ResolvesAt};

use crate::{Archive, Serialize};
use archive_shape::{Allocator, ArchivedLeaf, Error, LittleEndian, Place, Portable, Writer};
use std::num::{
    NonZeroI8, NonZeroI16, NonZeroI32, NonZeroI64, NonZeroI128, NonZeroU8, NonZeroU16, NonZeroU32,
    NonZeroU64, NonZeroU128,
};

/// A type of numbers, truth values or chars. Its values are archived without data.
pub trait Leaf: Copy {
    /// The archived form.
    type Archived: ArchivedLeaf<Native = Self>;
}

/// Writes the own bytes of a native value.
fn store_own<L: ArchivedLeaf>(native: L::Native, own: &mut [u8])
    requires { length own.old ≡ L.SIZE }
    ensures bytes { own.new ≡ L.bytes_of native }
    ensures value { Reads L.shape (L.bytes_of native) (L.value_of native) }
    ensures whole { length (L.bytes_of native) ≡ L.SIZE }
    ensures small { AreBytes (L.bytes_of native) }
{
    L::store(native, own);
}

impl<N: Leaf> Archive for N {
    type Archived = N::Archived;

    type Resolver = ();

    ghost spelling = { leaf_spelling N.Archived.shape N.Archived.bytes_of N.Archived.value_of };

    fn resolve(&self, _resolver: (), out: Place<'_, N::Archived>) -> Result<(), Error>
        requires { CanResolveAt ⟦<N as Archive>⟧.spelling N.Archived.shape self.now tt out }
        ensures { ResolvesAt ⟦<N as Archive>⟧.spelling N.Archived.shape self.now tt out.entry out.exit result }
    {
        let Place { out, start, .. } = out;
        let end = start + N::Archived::SIZE;
        store_own::<N::Archived>(*self, &mut out[start..end]);
        Ok(())
    }

    ghost spells = { λ fit. leaf_spells fit N.Archived.shape N.Archived.knows N.Archived.bytes_of N.Archived.value_of N.Archived.is_leaf };
}

impl<S: Writer + Allocator, N: Leaf> Serialize<S> for N {
    fn serialize(&self, _serializer: &mut S) -> Result<(), Error> {
        Ok(())
    }
}

impl Leaf for u8 {
    type Archived = u8;
}

impl Leaf for i8 {
    type Archived = i8;
}

impl Leaf for bool {
    type Archived = bool;
}

impl Leaf for char {
    type Archived = LittleEndian<char>;
}

impl Leaf for u16 {
    type Archived = LittleEndian<u16>;
}

impl Leaf for u32 {
    type Archived = LittleEndian<u32>;
}

impl Leaf for u64 {
    type Archived = LittleEndian<u64>;
}

impl Leaf for u128 {
    type Archived = LittleEndian<u128>;
}

impl Leaf for i16 {
    type Archived = LittleEndian<i16>;
}

impl Leaf for i32 {
    type Archived = LittleEndian<i32>;
}

impl Leaf for i64 {
    type Archived = LittleEndian<i64>;
}

impl Leaf for i128 {
    type Archived = LittleEndian<i128>;
}

impl Leaf for NonZeroU8 {
    type Archived = NonZeroU8;
}

impl Leaf for NonZeroI8 {
    type Archived = NonZeroI8;
}

impl Leaf for NonZeroU16 {
    type Archived = LittleEndian<NonZeroU16>;
}

impl Leaf for NonZeroU32 {
    type Archived = LittleEndian<NonZeroU32>;
}

impl Leaf for NonZeroU64 {
    type Archived = LittleEndian<NonZeroU64>;
}

impl Leaf for NonZeroU128 {
    type Archived = LittleEndian<NonZeroU128>;
}

impl Leaf for NonZeroI16 {
    type Archived = LittleEndian<NonZeroI16>;
}

impl Leaf for NonZeroI32 {
    type Archived = LittleEndian<NonZeroI32>;
}

impl Leaf for NonZeroI64 {
    type Archived = LittleEndian<NonZeroI64>;
}

impl Leaf for NonZeroI128 {
    type Archived = LittleEndian<NonZeroI128>;
}
