//! Checks of values without parts, which claim nothing.
ghost use Rattle.std.specs.Prelude.{◌≡◌, ◌≢◌, ℕ, Err, ◌+◌, ◌≤◌, length};
ghost use Rattle.archive_shape_layout.specs.Shape.{size_of};
ghost use Rattle.archive_shape_layout.specs.Content.{Names};
ghost use Rattle.archive_shape_layout.specs.Content.Part.{at};
ghost use Rattle.archive_shape.specs.Kept.{Kept};
ghost use Rattle.archive_shape.specs.Checks.{Checks};

use crate::checking::{ArchiveContext, CheckBytes, Error};
use crate::types::{ArchivedLeaf, LittleEndian, Native};
use std::alloc::Global;
use std::num::{NonZeroI8, NonZeroU8};

/// Checks that the bytes at `pos` are the own bytes of a value. Returns `InvalidTag` where they are not. The result is
/// right in every context, and no context changes.
pub fn check_leaf<T: ArchivedLeaf>(bytes: &[u8], pos: usize) -> Result<(), Error>
    requires { pos + size_of T.shape ≤ length bytes.now }
    ensures exact { (names : Names) (kept : Kept) → Checks names bytes.now (at pos T.shape) kept result kept }
    ensures memory { result ≢ Err Error.OutOfMemory }
{
    let own = &bytes[pos..pos + T::SIZE];
    if !T::accepts(own) {
        return Err(Error::InvalidTag);
    }
    let _native = T::read(own);
    Ok(())
}

impl<C: ArchiveContext, N: Native> CheckBytes<C> for LittleEndian<N> {
    fn check(_alloc: Global, bytes: &[u8], pos: usize, _context: &mut C) -> Result<(), Error> {
        check_leaf::<LittleEndian<N>>(bytes, pos)
    }
}

impl<C: ArchiveContext> CheckBytes<C> for u8 {
    fn check(_alloc: Global, bytes: &[u8], pos: usize, _context: &mut C) -> Result<(), Error> {
        check_leaf::<u8>(bytes, pos)
    }
}

impl<C: ArchiveContext> CheckBytes<C> for i8 {
    fn check(_alloc: Global, bytes: &[u8], pos: usize, _context: &mut C) -> Result<(), Error> {
        check_leaf::<i8>(bytes, pos)
    }
}

impl<C: ArchiveContext> CheckBytes<C> for bool {
    fn check(_alloc: Global, bytes: &[u8], pos: usize, _context: &mut C) -> Result<(), Error> {
        check_leaf::<bool>(bytes, pos)
    }
}

impl<C: ArchiveContext> CheckBytes<C> for NonZeroU8 {
    fn check(_alloc: Global, bytes: &[u8], pos: usize, _context: &mut C) -> Result<(), Error> {
        check_leaf::<NonZeroU8>(bytes, pos)
    }
}

impl<C: ArchiveContext> CheckBytes<C> for NonZeroI8 {
    fn check(_alloc: Global, bytes: &[u8], pos: usize, _context: &mut C) -> Result<(), Error> {
        check_leaf::<NonZeroI8>(bytes, pos)
    }
}
