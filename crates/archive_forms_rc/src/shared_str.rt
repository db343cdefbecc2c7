//! `ArchivedRcStr`, a counted pointer to a text: its layout, its check and the methods that read it.
ghost use Rattle.std.specs.Prelude.{◌+◌, ◌≤◌, [], length, refl, ⊤};
ghost use Rattle.std.proofs.Common.{lit<, lit≤};
ghost use Rattle.archive_shape_layout.specs.Shape.Shape.{shared};
ghost use Rattle.archive_shape_layout.specs.Shape.Pointee.{str};
ghost use Rattle.archive_shape.specs.Kept.{IsWithin};
ghost use Rattle.archive_shape.specs.Checks.{Moves};
ghost use Rattle.archive_forms_rc.specs.Pointers.{HasCounted, IsRcStrAt};
ghost use Rattle.archive_forms_rc.specs.Calls.Checking.{ChecksRcStr};
ghost use Rattle.archive_forms_rc.specs.Calls.Leading.{LeadsToStr};

use crate::Flavor;
use crate::visit::visit;
use archive_forms_values::{check_behind, target_of};
use archive_shape::{
    ArchivedIsize, CheckBytes, Error, NoUndef, Pointee, Portable, Ref, RelPtr, Shape,
    SharedContext, Str,
};
use std::alloc::{AllocError, Global};
use std::marker::PhantomData;

/// An archived counted pointer to a text, as rkyv's `ArchivedRc<str, L>`: an offset of four bytes that leads to the
/// text, which other pointers may share, and four bytes with its length in bytes.
#[derive_where(Clone, Copy)]
pub struct ArchivedRcStr<L> {
    pub of: PhantomData<L>,
}

impl<L> NoUndef for ArchivedRcStr<L> {}

impl<L: Flavor> Portable for ArchivedRcStr<L> {
    ghost SIZE = { 8 };

    ghost ALIGN = { 4 };

    ghost shape = { shared L.ALLOW_CYCLES str };

    ghost knows = { λ _. ⊤ };

    ghost named = { [] };

    const SIZE: usize = 8;

    const ALIGN: usize = 4;

    fn shape(_alloc: Global) -> Result<Shape, AllocError> {
        Ok(Shape::Shared {
            cyclic: L::ALLOW_CYCLES,
            pointee: Pointee::Text,
        })
    }

    ghost sized = { refl };

    ghost aligned = { refl };

    ghost aligns = { (lit< tt, lit≤ tt) };

    ghost known = { λ _ _. tt };
}

/// Checks the counted pointer of eight bytes at `pos`: an offset to the text, in bytes from `pos`, and the text's
/// length in bytes. At the first visit of the text its bytes are claimed. A later visit claims nothing.
///
/// Returns the same errors as `check_rc_each`. Another length than at the first visit is a `MetadataMismatch`, and
/// bytes that are not UTF-8 are `InvalidUtf8`, after they were claimed.
pub fn check_rc_str<L: Flavor, C: SharedContext>(
    alloc: Global,
    bytes: &[u8],
    pos: usize,
    context: &mut C,
) -> Result<(), Error>
    requires fits { pos + 8 ≤ length bytes.now }
    requires range { IsWithin (C.kept context.old) (length bytes.now) }
    ensures moves { Moves (C.kept context.old) result (C.kept context.new) }
    ensures exact { ChecksRcStr C.kept L.Flavor bytes.now pos context.old result context.new }
{
    let _len = bytes.len();
    let pointer = Ref::<RelPtr<Str, ArchivedIsize>>::new(bytes, pos);
    let len = RelPtr::metadata(pointer);
    let Some(target) = RelPtr::target(pointer) else {
        return Err(Error::InvalidSubtreePointer { size: len });
    };
    if !visit::<Str, L, C>(alloc, context, target, len)? {
        return Ok(());
    }
    check_behind(bytes, target, len, context)?;
    context.finish_shared(target)
}

impl<C: SharedContext, L: Flavor> CheckBytes<C> for ArchivedRcStr<L> {
    fn check(alloc: Global, bytes: &[u8], pos: usize, context: &mut C) -> Result<(), Error> {
        check_rc_str::<L, C>(alloc, bytes, pos, context)
    }
}

/// Returns the position of the text of the pointer at `pos`, and its length in bytes.
fn text_at<L: Flavor>(bytes: &[u8], pos: usize) -> (usize, usize)
    requires { HasCounted L.ALLOW_CYCLES str (λ _. ⊤) bytes.now pos }
    ensures { IsRcStrAt L.ALLOW_CYCLES bytes.now pos result.0 result.1 }
{
    let len = RelPtr::metadata(Ref::<RelPtr<Str, ArchivedIsize>>::new(bytes, pos));
    (target_of(bytes, pos), len)
}

impl<L: Flavor> ArchivedRcStr<L> {
    /// Returns the text that the pointer leads to.
    pub fn get<'a>(this: Ref<'a, ArchivedRcStr<L>>) -> &'a str
        requires { HasCounted L.ALLOW_CYCLES str (λ _. ⊤) this.bytes.now this.pos }
        ensures { LeadsToStr L.ALLOW_CYCLES this.entry.bytes.now this.entry.pos result.now }
    {
        let (start, len) = text_at::<L>(this.bytes, this.pos);
        // The bytes there are UTF-8.
        unsafe { std::str::from_utf8_unchecked(&this.bytes[start..start + len]) }
    }
}
