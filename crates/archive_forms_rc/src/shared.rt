//! `ArchivedRc`, a counted pointer to a value: its layout, its check and the methods that read it.
ghost use Rattle.std.specs.Prelude.{◌≡◌, ◌+◌, ◌≤◌, length};
ghost use Rattle.std.proofs.Common.{refl, lit<, lit≤};
ghost use Rattle.archive_shape_layout.specs.Shape.Shape.{shared};
ghost use Rattle.archive_shape_layout.specs.Shape.Pointee.{sized};
ghost use Rattle.archive_shape.specs.Kept.{IsWithin};
ghost use Rattle.archive_shape.specs.Checks.{Moves};
ghost use Rattle.archive_shape.specs.Steps.{StepTakes, StepChecks};
ghost use Rattle.archive_forms_values.specs.Parts.{HasValue};
ghost use Rattle.archive_forms_rc.specs.Pointers.{IsRcAt};
ghost use Rattle.archive_forms_rc.specs.Calls.Checking.{ChecksRc};

use crate::Flavor;
use crate::visit::visit;
use archive_forms_values::{check_behind_each, target_of};
use archive_shape::{
    ArchivePointee, CheckBytes, Error, NoUndef, Portable, RawRelPtrI32, Ref, Shape, SharedContext,
};
use std::alloc::{AllocError, Global};
use std::marker::PhantomData;

/// An archived counted pointer to a value, as rkyv's `ArchivedRc<T, L>`: an offset of four bytes that leads to the
/// value, which other pointers may share.
#[derive_where(Clone, Copy)]
pub struct ArchivedRc<T, L> {
    pub of: PhantomData<(T, L)>,
}

impl<T, L> NoUndef for ArchivedRc<T, L> {}

impl<T: Portable, L: Flavor> Portable for ArchivedRc<T, L> {
    ghost SIZE = { 4 };

    ghost ALIGN = { 4 };

    ghost shape = { shared L.ALLOW_CYCLES (sized T.shape) };

    ghost knows = { T.knows };

    ghost named = { T.named };

    const SIZE: usize = 4;

    const ALIGN: usize = 4;

    fn shape(alloc: Global) -> Result<Shape, AllocError> {
        Ok(Shape::Shared {
            cyclic: L::ALLOW_CYCLES,
            pointee: T::pointee(alloc)?,
        })
    }

    ghost sized = { refl };

    ghost aligned = { refl };

    ghost aligns = { (lit< tt, lit≤ tt) };

    ghost known = { T.known };
}

/// Checks the counted pointer of four bytes at `pos`: an offset to the value, in bytes from `pos`. At the first visit
/// of the value its bytes are claimed, and the regions that the step claims lie before them. A later visit claims
/// nothing.
///
/// Returns `InvalidSubtreePointer` with the value's size if the offset leads before the first byte. Returns
/// `TypeMismatch` if the value was visited before with another shape, `MetadataMismatch` if with another number of
/// elements, and `CyclicSharedPointer` if the pointer lies inside the value and the flavor forbids that. At the first
/// visit, returns `InvalidSubtreePointer` if the value is not in the range; then `Unaligned`,
/// `ExceededMaximumSubtreeDepth`, or the error of the step. `OutOfMemory` comes from the shape, the context or the
/// step.
pub fn check_rc_each<
    T: Portable,
    L: Flavor,
    C: SharedContext,
    F: Fn(&mut C, usize) -> Result<(), Error>,
>(alloc: Global, bytes: &[u8], pos: usize, context: &mut C, step: F) -> Result<(), Error>
    requires fits { pos + 4 ≤ length bytes.now }
    requires range { IsWithin (C.kept context.old) (length bytes.now) }
    requires takes { StepTakes F.Fn C.kept bytes.now T.shape step (C.kept context.old) T.SIZE }
    requires checks { StepChecks F.Fn C.kept bytes.now T.shape step T.knows }
    ensures moves { Moves (C.kept context.old) result (C.kept context.new) }
    ensures exact { ChecksRc C.kept T.Portable L.Flavor bytes.now pos context.old result context.new }
{
    let _len = bytes.len();
    let size = T::SIZE;
    let Some(target) = RawRelPtrI32::target(Ref::new(bytes, pos)) else {
        return Err(Error::InvalidSubtreePointer { size });
    };
    if !visit::<T, L, C>(alloc, context, target, 1)? {
        return Ok(());
    }
    check_behind_each::<T, C, F>(bytes, target, context, step)?;
    context.finish_shared(target)
}

impl<C: SharedContext, T: CheckBytes<C>, L: Flavor> CheckBytes<C> for ArchivedRc<T, L> {
    fn check(alloc: Global, bytes: &[u8], pos: usize, context: &mut C) -> Result<(), Error> {
        check_rc_each::<T, L, C, _>(
            alloc,
            bytes,
            pos,
            context,
            |c: &mut C, p: usize| T::check(alloc, bytes, p, c),
        )
    }
}

/// Returns the position of the value of the pointer at `pos`.
pub(crate) fn value_at<T: Portable, L: Flavor>(bytes: &[u8], pos: usize) -> usize
    requires { HasValue (shared L.ALLOW_CYCLES (sized T.shape)) T.knows bytes.now pos }
    ensures { IsRcAt L.ALLOW_CYCLES T.shape T.knows bytes.now pos result }
{
    target_of(bytes, pos)
}

impl<T: Portable, L: Flavor> ArchivedRc<T, L> {
    /// Returns the value that the pointer leads to. If the pointer leads back to a value that it lies inside, this is
    /// that value.
    pub fn get<'a>(this: Ref<'a, ArchivedRc<T, L>>) -> Ref<'a, T>
        requires { HasValue (shared L.ALLOW_CYCLES (sized T.shape)) T.knows this.bytes.now this.pos }
        ensures bytes { result.bytes ≡ this.entry.bytes }
        ensures value { IsRcAt L.ALLOW_CYCLES T.shape T.knows this.entry.bytes.now this.entry.pos result.pos }
    {
        Ref::new(this.bytes, value_at::<T, L>(this.bytes, this.pos))
    }
}
