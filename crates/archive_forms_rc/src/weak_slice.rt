//! `ArchivedRcWeakSlice`, a weak pointer to elements or to nothing: its layout, its check and the methods that read it.
ghost use Rattle.std.specs.Prelude.{◌+◌, ◌≤◌, length};
ghost use Rattle.std.proofs.Common.{refl, lit<, lit≤};
ghost use Rattle.archive_shape_layout.specs.Shape.Shape.{weak};
ghost use Rattle.archive_shape_layout.specs.Shape.Pointee.{slice};
ghost use Rattle.archive_shape.specs.Kept.{IsWithin};
ghost use Rattle.archive_shape.specs.Checks.{Moves};
ghost use Rattle.archive_shape.specs.Steps.{StepTakes, StepChecks};
ghost use Rattle.archive_forms_values.specs.Parts.{HasValue};
ghost use Rattle.archive_forms_rc.specs.Calls.Checking.{ChecksWeakSlice};
ghost use Rattle.archive_forms_rc.specs.Calls.Leading.{UpgradesSlice};

use crate::shared_slice::elements_at;
use crate::{Flavor, check_rc_slice_each};
use archive_forms_values::SliceRef;
use archive_shape::{
    ArchivePointee, CheckBytes, Error, Portable, Ref, Shape, SharedContext, Slice,
};
use std::alloc::{AllocError, Global};
use std::marker::PhantomData;

/// An archived weak pointer to elements, as rkyv's `ArchivedRcWeak<[T], L>`: a tag of one byte, which is 0 or 1, and with
/// 1 a counted pointer four bytes after the tag's position. With 0 the bytes of the pointer are not read.
#[derive_where(Clone, Copy)]
pub struct ArchivedRcWeakSlice<T, L> {
    pub of: PhantomData<(T, L)>,
}

impl<T: Portable, L: Flavor> Portable for ArchivedRcWeakSlice<T, L> {
    ghost SIZE = { 12 };

    ghost ALIGN = { 4 };

    ghost shape = { weak L.ALLOW_CYCLES (slice T.shape) };

    ghost knows = { T.knows };

    ghost named = { T.named };

    const SIZE: usize = 12;

    const ALIGN: usize = 4;

    fn shape(alloc: Global) -> Result<Shape, AllocError> {
        Ok(Shape::Weak {
            cyclic: L::ALLOW_CYCLES,
            pointee: Slice::<T>::pointee(alloc)?,
        })
    }

    ghost sized = { refl };

    ghost aligned = { refl };

    ghost aligns = { (lit< tt, lit≤ tt) };

    ghost known = { T.known };
}

/// Checks the weak pointer of twelve bytes at `pos`: a tag of one byte, which is 0 for nothing, or 1 if a counted
/// pointer is at `pos + 4`. Returns `InvalidTag` for any other tag, and for a pointer the same errors as
/// `check_rc_slice_each`.
pub fn check_rc_weak_slice_each<
    T: Portable,
    L: Flavor,
    C: SharedContext,
    F: Fn(&mut C, usize) -> Result<(), Error>,
>(alloc: Global, bytes: &[u8], pos: usize, context: &mut C, step: F) -> Result<(), Error>
    requires fits { pos + 12 ≤ length bytes.now }
    requires range { IsWithin (C.kept context.old) (length bytes.now) }
    requires takes { StepTakes F.Fn C.kept bytes.now T.shape step (C.kept context.old) T.SIZE }
    requires checks { StepChecks F.Fn C.kept bytes.now T.shape step T.knows }
    ensures moves { Moves (C.kept context.old) result (C.kept context.new) }
    ensures exact { ChecksWeakSlice C.kept T.Portable L.Flavor bytes.now pos context.old result context.new }
{
    let _len = bytes.len();
    match bytes[pos] {
        0 => Ok(()),
        1 => check_rc_slice_each::<T, L, C, F>(alloc, bytes, pos + 4, context, step),
        _ => Err(Error::InvalidTag),
    }
}

impl<C: SharedContext, T: CheckBytes<C>, L: Flavor> CheckBytes<C> for ArchivedRcWeakSlice<T, L> {
    fn check(alloc: Global, bytes: &[u8], pos: usize, context: &mut C) -> Result<(), Error> {
        check_rc_weak_slice_each::<T, L, C, _>(
            alloc,
            bytes,
            pos,
            context,
            |c: &mut C, p: usize| T::check(alloc, bytes, p, c),
        )
    }
}

impl<T: Portable, L: Flavor> ArchivedRcWeakSlice<T, L> {
    /// Returns the elements, if the pointer leads to any.
    pub fn upgrade<'a>(this: Ref<'a, ArchivedRcWeakSlice<T, L>>) -> Option<SliceRef<'a, T>>
        requires { HasValue (weak L.ALLOW_CYCLES (slice T.shape)) T.knows this.bytes.now this.pos }
        ensures { UpgradesSlice L.ALLOW_CYCLES T.shape T.knows this.entry result }
    {
        let Ref { bytes, pos, .. } = this;
        if bytes[pos] == 0 {
            return None;
        }
        let (pos, len) = elements_at::<T, L>(bytes, pos + 4);
        Some(SliceRef {
            bytes,
            pos,
            len,
            of: PhantomData,
        })
    }
}
