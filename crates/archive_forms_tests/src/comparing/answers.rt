//! Whether values that are checked are compared, hashed and printed as is wanted.
ghost use Rattle.std.specs.Prelude.{[]};

use crate::narrow_context::NarrowContext;
use crate::reading::checked::checked;
use archive_forms_comparing::{ArchivedDebug, ArchivedHash, ArchivedOrd};
use archive_shape::CheckBytes;
use std::alloc::Global;
use std::cmp::Ordering;
use std::fmt::Formatter;
use std::hash::{DefaultHasher, Hash, Hasher};

/// Returns whether two values, each given by bytes and a position, are equal or not as `same` says, and in this order.
pub fn compared_as<T: ArchivedOrd + CheckBytes<NarrowContext>>(
    alloc: Global,
    first: (&[u8], usize),
    second: (&[u8], usize),
    same: bool,
    order: Ordering,
) -> bool
    requires { T.knows [] }
{
    let Ok(this) = checked::<T>(alloc, first.0, first.1) else {
        return false;
    };
    let Ok(other) = checked::<T>(alloc, second.0, second.1) else {
        return false;
    };
    T::eq(&this, &other) == same && T::cmp(&this, &other) == order
}

/// Returns whether the value at `pos` has the same hash as the native one.
pub fn hashed_as<T: ArchivedHash + CheckBytes<NarrowContext>, N: Hash>(
    alloc: Global,
    bytes: &[u8],
    pos: usize,
    native: &N,
) -> bool
    requires { T.knows [] }
{
    let Ok(this) = checked::<T>(alloc, bytes, pos) else {
        return false;
    };
    let mut state = DefaultHasher::new();
    T::hash(&this, &mut state);
    let mut native_state = DefaultHasher::new();
    native.hash(&mut native_state);
    state.finish() == native_state.finish()
}

/// Returns whether `ArchivedDebug` prints `text` for the value at `pos`.
pub fn printed_as<T: ArchivedDebug + CheckBytes<NarrowContext>>(
    alloc: Global,
    bytes: &[u8],
    pos: usize,
    text: &str,
) -> bool
    requires { T.knows [] }
{
    let Ok(this) = checked::<T>(alloc, bytes, pos) else {
        return false;
    };
    let mut f = Formatter::new(String::new(alloc));
    T::fmt(&this, &mut f).is_ok() && f.into_inner().as_str() == text
}
