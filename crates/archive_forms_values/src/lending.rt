//! Loans of values of a buffer with only their own bytes, to callers and to calls of closures.
ghost use Rattle.std.specs.Prelude.{◌+◌, ◌≤◌, length};
ghost use Rattle.archive_forms_values.specs.Loans.{IsOwn, IsLent};
ghost use Rattle.archive_forms_values.specs.Calls.Lending.{MayVisitOwn, VisitsOwn, MayVisitEntry, VisitsEntry};

use archive_shape::{OwnSeal, Portable, Ref};

/// Returns the value at a position, with only its own bytes.
pub fn lend_own<V: Portable>(bytes: &mut [u8], at: usize) -> OwnSeal<'_, V>
    requires { at + V.SIZE ≤ length bytes.old }
    ensures { IsOwn V.SIZE bytes.old at result }
{
    OwnSeal::new(&mut bytes[at..at + V::SIZE], at)
}

/// Returns the key at one position, and the value at another with only the value's own bytes. The key is read from the
/// bytes before the value.
pub fn lend_entry<K, V: Portable>(
    bytes: &mut [u8],
    key: usize,
    value: usize,
) -> (Ref<'_, K>, OwnSeal<'_, V>)
    requires { value + V.SIZE ≤ length bytes.old }
    ensures { IsLent V.SIZE bytes.old key value result.0 result.1 }
{
    let (before, rest) = bytes.split_at_mut(value);
    (
        Ref::new(before, key),
        OwnSeal::new(&mut rest[..V::SIZE], value),
    )
}

/// Calls `visit` with the value at a position, which has only its own bytes, and returns the result of the call.
pub fn visit_own<V: Portable, R, F: FnMut(&mut OwnSeal<'_, V>) -> R>(
    bytes: &mut [u8],
    at: usize,
    visit: &mut F,
) -> R
    requires within { at + V.SIZE ≤ length bytes.old }
    requires callable { MayVisitOwn V.SIZE bytes.old at (F.pre visit.old) }
    ensures { VisitsOwn V.SIZE bytes.old at (F.step visit.old) result visit.new bytes.new }
{
    let size = V::SIZE;
    let (_before, rest) = bytes.split_at_mut(at);
    let (own, _after) = rest.split_at_mut(size);
    let mut value = OwnSeal::new(own, at);
    visit(&mut value)
}

/// Calls `visit` with the key at one position, and the value at another, which has only its own bytes, and returns the
/// result of the call. The key is read from the bytes before the value.
pub fn visit_entry<K, V: Portable, R, F: FnMut(Ref<'_, K>, &mut OwnSeal<'_, V>) -> R>(
    bytes: &mut [u8],
    key: usize,
    value: usize,
    visit: &mut F,
) -> R
    requires within { value + V.SIZE ≤ length bytes.old }
    requires callable { MayVisitEntry V.SIZE bytes.old key value (F.pre visit.old) }
    ensures { VisitsEntry V.SIZE bytes.old key value (F.step visit.old) result visit.new bytes.new }
{
    let size = V::SIZE;
    let (before, rest) = bytes.split_at_mut(value);
    let (own, _after) = rest.split_at_mut(size);
    let mut seal = OwnSeal::new(own, value);
    visit(Ref::new(before, key), &mut seal)
}
