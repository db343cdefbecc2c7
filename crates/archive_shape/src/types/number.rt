//! The archived form of numbers and chars that have more than one byte.
ghost use Rattle.std.specs.Prelude.{◌≡◌};

use crate::numbers::Native;
use std::marker::Model;
use std::num::{
    NonZeroI16, NonZeroI32, NonZeroI64, NonZeroI128, NonZeroU16, NonZeroU32, NonZeroU64,
    NonZeroU128,
};

/// The archived form of a native number or char, in little-endian byte order.
#[derive(Clone, Copy, Debug, PartialEq, Eq, PartialOrd, Ord, Hash)]
pub struct LittleEndian<N> {
    native: N,
}

impl<N> Model for LittleEndian<N> {
    ghost Value = { N };

    ghost view = { λ l. l.native };

    ghost inverse = { λ n. record { native = n } };
}

impl<N: Native> LittleEndian<N> {
    /// Converts a native number to its archived form.
    pub fn from_native(native: N) -> Self
        ensures { result ≡ native }
    {
        LittleEndian { native }
    }

    /// Returns the native number.
    pub fn to_native(self) -> N
        ensures { result ≡ self }
    {
        self.native
    }
}

pub type ArchivedU16 = LittleEndian<u16>;

pub type ArchivedU32 = LittleEndian<u32>;

pub type ArchivedU64 = LittleEndian<u64>;

pub type ArchivedU128 = LittleEndian<u128>;

pub type ArchivedI16 = LittleEndian<i16>;

pub type ArchivedI32 = LittleEndian<i32>;

pub type ArchivedI64 = LittleEndian<i64>;

pub type ArchivedI128 = LittleEndian<i128>;

/// The archived form of `char`: its code in four bytes.
pub type ArchivedChar = LittleEndian<char>;

pub type ArchivedNonZeroU16 = LittleEndian<NonZeroU16>;

pub type ArchivedNonZeroU32 = LittleEndian<NonZeroU32>;

pub type ArchivedNonZeroU64 = LittleEndian<NonZeroU64>;

pub type ArchivedNonZeroU128 = LittleEndian<NonZeroU128>;

pub type ArchivedNonZeroI16 = LittleEndian<NonZeroI16>;

pub type ArchivedNonZeroI32 = LittleEndian<NonZeroI32>;

pub type ArchivedNonZeroI64 = LittleEndian<NonZeroI64>;

pub type ArchivedNonZeroI128 = LittleEndian<NonZeroI128>;

/// The native type of archived lengths and positions.
pub type FixedUsize = u32;
/// The native type of archived offsets.
pub type FixedIsize = i32;
/// The native type of archived lengths and positions without 0.
pub type FixedNonZeroUsize = NonZeroU32;
/// The native type of archived offsets without 0.
pub type FixedNonZeroIsize = NonZeroI32;

/// The archived form of lengths and positions, which has four bytes.
pub type ArchivedUsize = LittleEndian<FixedUsize>;

/// The archived form of offsets, which has four bytes.
pub type ArchivedIsize = LittleEndian<FixedIsize>;

/// The archived form of lengths and positions without 0.
pub type ArchivedNonZeroUsize = LittleEndian<FixedNonZeroUsize>;

/// The archived form of offsets without 0.
pub type ArchivedNonZeroIsize = LittleEndian<FixedNonZeroIsize>;
