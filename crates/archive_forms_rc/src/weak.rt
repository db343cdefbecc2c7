//! `ArchivedRcWeak`, a weak pointer to a value or to nothing: its layout, its check and the methods that read it.
ghost use Rattle.std.specs.Prelude.{◌+◌, ◌≤◌, length};
ghost use Rattle.std.proofs.Common.{refl, lit<, lit≤};
ghost use Rattle.archive_shape_layout.specs.Shape.Shape.{weak};
ghost use Rattle.archive_shape_layout.specs.Shape.Pointee.{sized};
ghost use Rattle.archive_shape.specs.Kept.{IsWithin};
ghost use Rattle.archive_shape.specs.Checks.{Moves};
ghost use Rattle.archive_shape.specs.Steps.{StepTakes, StepChecks};
ghost use Rattle.archive_forms_values.specs.Parts.{HasValue};
ghost use Rattle.archive_forms_rc.specs.Calls.Checking.{ChecksWeak};
ghost use Rattle.archive_forms_rc.specs.Calls.Leading.{Upgrades};

use crate::shared::value_at;
use crate::{Flavor, check_rc_each};
use archive_shape::{ArchivePointee, CheckBytes, Error, Portable, Ref, Shape, SharedContext};
use std::alloc::{AllocError, Global};
use std::marker::PhantomData;

/// An archived weak pointer to a value, as rkyv's `ArchivedRcWeak<T, L>`: a tag of one byte, which is 0 or 1, and with
/// 1 a counted pointer four bytes after the tag's position. With 0 the bytes of the pointer are not read.
#[derive_where(Clone, Copy)]
pub struct ArchivedRcWeak<T, L> {
    pub of: PhantomData<(T, L)>,
}

impl<T: Portable, L: Flavor> Portable for ArchivedRcWeak<T, L> {
    ghost SIZE = { 8 };

    ghost ALIGN = { 4 };

    ghost shape = { weak L.ALLOW_CYCLES (sized T.shape) };

    ghost knows = { T.knows };

    ghost named = { T.named };

    const SIZE: usize = 8;

    const ALIGN: usize = 4;

    fn shape(alloc: Global) -> Result<Shape, AllocError> {
        Ok(Shape::Weak {
            cyclic: L::ALLOW_CYCLES,
            pointee: T::pointee(alloc)?,
        })
    }

    ghost sized = { refl };

    ghost aligned = { refl };

    ghost aligns = { (lit< tt, lit≤ tt) };

    ghost known = { T.known };
}

/// Checks the weak pointer of eight bytes at `pos`: a tag of one byte, which is 0 for nothing, or 1 if a counted
/// pointer is at `pos + 4`. Returns `InvalidTag` for any other tag, and for a pointer the same errors as
/// `check_rc_each`.
pub fn check_rc_weak_each<
    T: Portable,
    L: Flavor,
    C: SharedContext,
    F: Fn(&mut C, usize) -> Result<(), Error>,
>(alloc: Global, bytes: &[u8], pos: usize, context: &mut C, step: F) -> Result<(), Error>
    requires fits { pos + 8 ≤ length bytes.now }
    requires range { IsWithin (C.kept context.old) (length bytes.now) }
    requires takes { StepTakes F.Fn C.kept bytes.now T.shape step (C.kept context.old) T.SIZE }
    requires checks { StepChecks F.Fn C.kept bytes.now T.shape step T.knows }
    ensures moves { Moves (C.kept context.old) result (C.kept context.new) }
    ensures exact { ChecksWeak C.kept T.Portable L.Flavor bytes.now pos context.old result context.new }
{
    let _len = bytes.len();
    match bytes[pos] {
        0 => Ok(()),
        1 => check_rc_each::<T, L, C, F>(alloc, bytes, pos + 4, context, step),
        _ => Err(Error::InvalidTag),
    }
}

impl<C: SharedContext, T: CheckBytes<C>, L: Flavor> CheckBytes<C> for ArchivedRcWeak<T, L> {
    fn check(alloc: Global, bytes: &[u8], pos: usize, context: &mut C) -> Result<(), Error> {
        check_rc_weak_each::<T, L, C, _>(
            alloc,
            bytes,
            pos,
            context,
            |c: &mut C, p: usize| T::check(alloc, bytes, p, c),
        )
    }
}

impl<T: Portable, L: Flavor> ArchivedRcWeak<T, L> {
    /// Returns the value, if the pointer leads to one.
    pub fn upgrade<'a>(this: Ref<'a, ArchivedRcWeak<T, L>>) -> Option<Ref<'a, T>>
        requires { HasValue (weak L.ALLOW_CYCLES (sized T.shape)) T.knows this.bytes.now this.pos }
        ensures { Upgrades L.ALLOW_CYCLES T.shape T.knows this.entry result }
    {
        let Ref { bytes, pos, .. } = this;
        if bytes[pos] == 0 {
            None
        } else {
            Some(Ref::new(bytes, value_at::<T, L>(bytes, pos + 4)))
        }
    }
}
