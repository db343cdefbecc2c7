//! `ArchivedRcSlice`, a counted pointer to elements: its layout, its check and the methods that read it.
ghost use Rattle.std.specs.Prelude.{◌≡◌, ◌+◌, ◌≤◌, length};
ghost use Rattle.std.proofs.Common.{refl, lit<, lit≤};
ghost use Rattle.archive_shape_layout.specs.Shape.Shape.{shared};
ghost use Rattle.archive_shape_layout.specs.Shape.Pointee.{slice};
ghost use Rattle.archive_shape.specs.Kept.{IsWithin};
ghost use Rattle.archive_shape.specs.Checks.{Moves};
ghost use Rattle.archive_shape.specs.Steps.{StepTakes, StepChecks};
ghost use Rattle.archive_forms_values.specs.Parts.{HasValue};
ghost use Rattle.archive_forms_rc.specs.Pointers.{IsRcSliceAt};
ghost use Rattle.archive_forms_rc.specs.Calls.Checking.{ChecksRcSlice};
ghost use Rattle.archive_forms_rc.specs.Calls.Leading.{LeadsToSlice};

use crate::Flavor;
use crate::visit::visit;
use archive_forms_values::{SliceRef, check_vec_each, target_of};
use archive_shape::{
    ArchivePointee, ArchivedIsize, CheckBytes, Error, NoUndef, Portable, Ref, RelPtr, Shape,
    SharedContext, Slice,
};
use std::alloc::{AllocError, Global};
use std::marker::PhantomData;

/// An archived counted pointer to a slice, as rkyv's `ArchivedRc<[T], L>`: an offset of four bytes that leads to the
/// elements, which other pointers may share, and four bytes with their number.
#[derive_where(Clone, Copy)]
pub struct ArchivedRcSlice<T, L> {
    pub of: PhantomData<(T, L)>,
}

impl<T, L> NoUndef for ArchivedRcSlice<T, L> {}

impl<T: Portable, L: Flavor> Portable for ArchivedRcSlice<T, L> {
    ghost SIZE = { 8 };

    ghost ALIGN = { 4 };

    ghost shape = { shared L.ALLOW_CYCLES (slice T.shape) };

    ghost knows = { T.knows };

    ghost named = { T.named };

    const SIZE: usize = 8;

    const ALIGN: usize = 4;

    fn shape(alloc: Global) -> Result<Shape, AllocError> {
        Ok(Shape::Shared {
            cyclic: L::ALLOW_CYCLES,
            pointee: Slice::<T>::pointee(alloc)?,
        })
    }

    ghost sized = { refl };

    ghost aligned = { refl };

    ghost aligns = { (lit< tt, lit≤ tt) };

    ghost known = { T.known };
}

/// Checks the counted pointer of eight bytes at `pos`: an offset to the elements, in bytes from `pos`, and the number
/// of elements. At the first visit of the elements their bytes are claimed as one region, and the regions that the step
/// claims lie before it. A later visit claims nothing.
///
/// Returns the same errors as `check_rc_each`. The size of the elements in `InvalidSubtreePointer` is at most
/// `usize::MAX`, and another number of elements than at the first visit is a `MetadataMismatch`.
pub fn check_rc_slice_each<
    T: Portable,
    L: Flavor,
    C: SharedContext,
    F: Fn(&mut C, usize) -> Result<(), Error>,
>(alloc: Global, bytes: &[u8], pos: usize, context: &mut C, step: F) -> Result<(), Error>
    requires fits { pos + 8 ≤ length bytes.now }
    requires range { IsWithin (C.kept context.old) (length bytes.now) }
    requires takes { StepTakes F.Fn C.kept bytes.now T.shape step (C.kept context.old) T.SIZE }
    requires checks { StepChecks F.Fn C.kept bytes.now T.shape step T.knows }
    ensures moves { Moves (C.kept context.old) result (C.kept context.new) }
    ensures exact { ChecksRcSlice C.kept T.Portable L.Flavor bytes.now pos context.old result context.new }
{
    let _len = bytes.len();
    let pointer = Ref::<RelPtr<Slice<T>, ArchivedIsize>>::new(bytes, pos);
    let len = RelPtr::metadata(pointer);
    let size = len.saturating_mul(T::SIZE);
    let Some(target) = RelPtr::target(pointer) else {
        return Err(Error::InvalidSubtreePointer { size });
    };
    if !visit::<Slice<T>, L, C>(alloc, context, target, len)? {
        return Ok(());
    }
    // The pointer has the own bytes of a vector.
    check_vec_each::<T, C, F>(bytes, pos, context, step)?;
    context.finish_shared(target)
}

impl<C: SharedContext, T: CheckBytes<C>, L: Flavor> CheckBytes<C> for ArchivedRcSlice<T, L> {
    fn check(alloc: Global, bytes: &[u8], pos: usize, context: &mut C) -> Result<(), Error> {
        check_rc_slice_each::<T, L, C, _>(
            alloc,
            bytes,
            pos,
            context,
            |c: &mut C, p: usize| T::check(alloc, bytes, p, c),
        )
    }
}

/// Returns the position of the elements of the pointer at `pos`, and their number.
pub(crate) fn elements_at<T: Portable, L: Flavor>(bytes: &[u8], pos: usize) -> (usize, usize)
    requires { HasValue (shared L.ALLOW_CYCLES (slice T.shape)) T.knows bytes.now pos }
    ensures { IsRcSliceAt L.ALLOW_CYCLES T.shape T.knows bytes.now pos result.0 result.1 }
{
    let len = RelPtr::metadata(Ref::<RelPtr<Slice<T>, ArchivedIsize>>::new(bytes, pos));
    (target_of(bytes, pos), len)
}

impl<T: Portable, L: Flavor> ArchivedRcSlice<T, L> {
    /// Returns the elements that the pointer leads to. If the pointer leads back to elements that it lies inside, these
    /// are those elements.
    pub fn get<'a>(this: Ref<'a, ArchivedRcSlice<T, L>>) -> SliceRef<'a, T>
        requires { HasValue (shared L.ALLOW_CYCLES (slice T.shape)) T.knows this.bytes.now this.pos }
        ensures bytes { result.bytes ≡ this.entry.bytes }
        ensures elements { LeadsToSlice L.ALLOW_CYCLES T.shape T.knows this.entry result }
    {
        let (pos, len) = elements_at::<T, L>(this.bytes, this.pos);
        SliceRef {
            bytes: this.bytes,
            pos,
            len,
            of: PhantomData,
        }
    }
}
