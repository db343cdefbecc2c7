//! `ArchivedRcWeakStr`, a weak pointer to a text or to nothing: its layout, its check and the methods that read it.
ghost use Rattle.std.specs.Prelude.{◌+◌, ◌≤◌, [], length, ⊤};
ghost use Rattle.std.proofs.Common.{refl, lit<, lit≤};
ghost use Rattle.archive_shape_layout.specs.Shape.Shape.{weak};
ghost use Rattle.archive_shape_layout.specs.Shape.Pointee.{str};
ghost use Rattle.archive_shape.specs.Kept.{IsWithin};
ghost use Rattle.archive_shape.specs.Checks.{Moves};
ghost use Rattle.archive_forms_values.specs.Parts.{HasValue};
ghost use Rattle.archive_forms_rc.specs.Calls.Checking.{ChecksWeakStr};
ghost use Rattle.archive_forms_rc.specs.Calls.Leading.{UpgradesStr};

use crate::{Acyclic, ArchivedRcStr, Flavor, check_rc_str};
use archive_shape::{CheckBytes, Error, Pointee, Portable, Ref, Shape, SharedContext};
use std::alloc::{AllocError, Global};
use std::marker::PhantomData;

/// An archived weak pointer to a text, as rkyv's `ArchivedRcWeak<str, L>`: a tag of one byte, which is 0 or 1, and with
/// 1 a counted pointer four bytes after the tag's position. With 0 the bytes of the pointer are not read.
#[derive_where(Clone, Copy)]
pub struct ArchivedRcWeakStr<L> {
    pub of: PhantomData<L>,
}

impl<L: Flavor> Portable for ArchivedRcWeakStr<L> {
    ghost SIZE = { 12 };

    ghost ALIGN = { 4 };

    ghost shape = { weak L.ALLOW_CYCLES str };

    ghost knows = { λ _. ⊤ };

    ghost named = { [] };

    const SIZE: usize = 12;

    const ALIGN: usize = 4;

    fn shape(_alloc: Global) -> Result<Shape, AllocError> {
        Ok(Shape::Weak {
            cyclic: L::ALLOW_CYCLES,
            pointee: Pointee::Text,
        })
    }

    ghost sized = { refl };

    ghost aligned = { refl };

    ghost aligns = { (lit< tt, lit≤ tt) };

    ghost known = { λ _ _. tt };
}

/// Checks the weak pointer of twelve bytes at `pos`: a tag of one byte, which is 0 for nothing, or 1 if a counted
/// pointer is at `pos + 4`. Returns `InvalidTag` for any other tag, and for a pointer the same errors as
/// `check_rc_str`.
pub fn check_rc_weak_str<L: Flavor, C: SharedContext>(
    alloc: Global,
    bytes: &[u8],
    pos: usize,
    context: &mut C,
) -> Result<(), Error>
    requires fits { pos + 12 ≤ length bytes.now }
    requires range { IsWithin (C.kept context.old) (length bytes.now) }
    ensures moves { Moves (C.kept context.old) result (C.kept context.new) }
    ensures exact { ChecksWeakStr C.kept L.Flavor bytes.now pos context.old result context.new }
{
    let _len = bytes.len();
    match bytes[pos] {
        0 => Ok(()),
        1 => check_rc_str::<L, C>(alloc, bytes, pos + 4, context),
        _ => Err(Error::InvalidTag),
    }
}

impl<C: SharedContext, L: Flavor> CheckBytes<C> for ArchivedRcWeakStr<L> {
    fn check(alloc: Global, bytes: &[u8], pos: usize, context: &mut C) -> Result<(), Error> {
        check_rc_weak_str::<L, C>(alloc, bytes, pos, context)
    }
}

impl<L: Acyclic> ArchivedRcWeakStr<L> {
    /// Returns the text, if the pointer leads to one.
    pub fn upgrade<'a>(this: Ref<'a, ArchivedRcWeakStr<L>>) -> Option<&'a str>
        requires { HasValue (weak L.ALLOW_CYCLES str) (λ _. ⊤) this.bytes.now this.pos }
        ensures { UpgradesStr L.ALLOW_CYCLES this.entry result }
    {
        let Ref { bytes, pos, .. } = this;
        if bytes[pos] == 0 {
            return None;
        }
        let pointer = Ref::<ArchivedRcStr<L>>::new(bytes, pos + 4);
        Some(ArchivedRcStr::get(pointer))
    }
}
