//! Offsets between positions, and the numbers that they are stored as.
ghost use Rattle.std.specs.Prelude.{◌≡◌, ℤ, pos, List, ℕ, OnOk, MatchResult, FitsSigned, unsigned_abs, ◌≤◌, ◌∷◌, []};
ghost use Rattle.std.specs.Int.{w8, w16, w32, w64, FitsUnsignedBits, to_le_bytes, cast_unsigned};
ghost use Rattle.std.proofs.Common.{lit<, lit≤};
ghost use Rattle.std.proofs.Math.Facts.{sfits_widen};
ghost use Rattle.archive_shape.specs.Offsets.{difference, signed_number, unsigned_number};
ghost use Rattle.archive_shape_layout.proofs.Offsets.{unsigned_fits};
ghost use Rattle.archive_shape_layout.specs.declared.error.Error.TheVariants.{IsizeOverflow};

use crate::types::{
    ArchivedI16, ArchivedI32, ArchivedI64, ArchivedLeaf, ArchivedU16, ArchivedU32, ArchivedU64,
};
use archive_shape_layout::Error;

/// Returns the offset from `from` to `to` in bytes, or `IsizeOverflow` where it does not fit.
pub fn signed_offset(from: usize, to: usize) -> Result<isize, Error>
    ensures { MatchResult result (λ n. n ≡ difference from to) (λ e. (e ≡ IsizeOverflow) × (FitsSigned w64 (difference from to) → ⊥)) }
{
    match to.checked_signed_diff(from) {
        Some(n) => Ok(n),
        None => Err(Error::IsizeOverflow),
    }
}

/// A type of numbers that offsets are stored as.
pub trait Offset: ArchivedLeaf {
    /// The offset that the own bytes are read as.
    ghost offset_of: { List ℕ → ℤ };

    /// The bytes that an offset is stored as.
    ghost offset_bytes: { ℤ → List ℕ };

    /// Which offsets can be stored.
    ghost fits: { ℤ → Type 0 };

    /// Returns the number that is stored for the offset, or `IsizeOverflow` where the offset cannot be stored.
    fn from_isize(value: isize) -> Result<Self::Native, Error>
        ensures fits { MatchResult result (λ n. fits value × (Self.bytes_of n ≡ offset_bytes value)) (λ e. (e ≡ IsizeOverflow) × (fits value → ⊥)) }
        ensures read_back { OnOk result (offset_of (offset_bytes value) ≡ value) };

    /// Returns the offset that the stored number is read as.
    fn to_isize(native: Self::Native) -> isize
        ensures { result ≡ offset_of (Self.bytes_of native) };

    ghost legal: { (own : List ℕ) → Self.is_legal own };

    ghost one_fits: { fits (pos 1) };

    ghost fits_isize: { (z : ℤ) → fits z → FitsSigned w64 z };

    ghost is_small: { Self.SIZE ≤ 8 };
}

impl Offset for i8 {
    ghost offset_of = { signed_number w8 };

    ghost offset_bytes = { λ z. to_le_bytes w8 (cast_unsigned w8 z) };

    ghost fits = { FitsSigned w8 };

    fn from_isize(value: isize) -> Result<i8, Error> {
        match i8::try_from(value) {
            Ok(n) => Ok(n),
            Err(_) => Err(Error::IsizeOverflow),
        }
    }

    fn to_isize(native: i8) -> isize {
        native as isize
    }

    ghost legal = { λ _. tt };

    ghost one_fits = { record { sfits = lit< tt } };

    ghost fits_isize = { λ _. sfits_widen tt };

    ghost is_small = { lit≤ tt };
}

impl Offset for ArchivedI16 {
    ghost offset_of = { signed_number w16 };

    ghost offset_bytes = { λ z. to_le_bytes w16 (cast_unsigned w16 z) };

    ghost fits = { FitsSigned w16 };

    fn from_isize(value: isize) -> Result<i16, Error> {
        match i16::try_from(value) {
            Ok(n) => Ok(n),
            Err(_) => Err(Error::IsizeOverflow),
        }
    }

    fn to_isize(native: i16) -> isize {
        native as isize
    }

    ghost legal = { λ _. tt };

    ghost one_fits = { record { sfits = lit< tt } };

    ghost fits_isize = { λ _. sfits_widen tt };

    ghost is_small = { lit≤ tt };
}

impl Offset for ArchivedI32 {
    ghost offset_of = { signed_number w32 };

    ghost offset_bytes = { λ z. to_le_bytes w32 (cast_unsigned w32 z) };

    ghost fits = { FitsSigned w32 };

    fn from_isize(value: isize) -> Result<i32, Error> {
        match i32::try_from(value) {
            Ok(n) => Ok(n),
            Err(_) => Err(Error::IsizeOverflow),
        }
    }

    fn to_isize(native: i32) -> isize {
        native as isize
    }

    ghost legal = { λ _. tt };

    ghost one_fits = { record { sfits = lit< tt } };

    ghost fits_isize = { λ _. sfits_widen tt };

    ghost is_small = { lit≤ tt };
}

impl Offset for ArchivedI64 {
    ghost offset_of = { signed_number w64 };

    ghost offset_bytes = { λ z. to_le_bytes w64 (cast_unsigned w64 z) };

    ghost fits = { FitsSigned w64 };

    fn from_isize(value: isize) -> Result<i64, Error> {
        match i64::try_from(value) {
            Ok(n) => Ok(n),
            Err(_) => Err(Error::IsizeOverflow),
        }
    }

    fn to_isize(native: i64) -> isize {
        native as isize
    }

    ghost legal = { λ _. tt };

    ghost one_fits = { record { sfits = lit< tt } };

    ghost fits_isize = { λ _. sfits_widen tt };

    ghost is_small = { lit≤ tt };
}

impl Offset for u8 {
    ghost offset_of = { unsigned_number w8 };

    ghost offset_bytes = { λ z. unsigned_abs z ∷ [] };

    ghost fits = { FitsUnsignedBits 8 };

    fn from_isize(value: isize) -> Result<u8, Error> {
        match u8::try_from(value) {
            Ok(n) => Ok(n),
            Err(_) => Err(Error::IsizeOverflow),
        }
    }

    fn to_isize(native: u8) -> isize {
        native as isize
    }

    ghost legal = { λ _. tt };

    ghost one_fits = { lit< tt };

    ghost fits_isize = { λ z. unsigned_fits 8 z (lit≤ tt) };

    ghost is_small = { lit≤ tt };
}

impl Offset for ArchivedU16 {
    ghost offset_of = { unsigned_number w16 };

    ghost offset_bytes = { λ z. to_le_bytes w16 (unsigned_abs z) };

    ghost fits = { FitsUnsignedBits 16 };

    fn from_isize(value: isize) -> Result<u16, Error> {
        match u16::try_from(value) {
            Ok(n) => Ok(n),
            Err(_) => Err(Error::IsizeOverflow),
        }
    }

    fn to_isize(native: u16) -> isize {
        native as isize
    }

    ghost legal = { λ _. tt };

    ghost one_fits = { lit< tt };

    ghost fits_isize = { λ z. unsigned_fits 16 z (lit≤ tt) };

    ghost is_small = { lit≤ tt };
}

impl Offset for ArchivedU32 {
    ghost offset_of = { unsigned_number w32 };

    ghost offset_bytes = { λ z. to_le_bytes w32 (unsigned_abs z) };

    ghost fits = { FitsUnsignedBits 32 };

    fn from_isize(value: isize) -> Result<u32, Error> {
        match u32::try_from(value) {
            Ok(n) => Ok(n),
            Err(_) => Err(Error::IsizeOverflow),
        }
    }

    fn to_isize(native: u32) -> isize {
        native as isize
    }

    ghost legal = { λ _. tt };

    ghost one_fits = { lit< tt };

    ghost fits_isize = { λ z. unsigned_fits 32 z (lit≤ tt) };

    ghost is_small = { lit≤ tt };
}

impl Offset for ArchivedU64 {
    ghost offset_of = { signed_number w64 };

    ghost offset_bytes = { λ z. to_le_bytes w64 (unsigned_abs z) };

    ghost fits = { FitsUnsignedBits 63 };

    fn from_isize(value: isize) -> Result<u64, Error> {
        match u64::try_from(value) {
            Ok(n) => Ok(n),
            Err(_) => Err(Error::IsizeOverflow),
        }
    }

    fn to_isize(native: u64) -> isize {
        native.cast_signed() as isize
    }

    ghost legal = { λ _. tt };

    ghost one_fits = { lit< tt };

    ghost fits_isize = { λ z. unsigned_fits 63 z (lit≤ tt) };

    ghost is_small = { lit≤ tt };
}
