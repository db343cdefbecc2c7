//! `ArchivedBoxedStr`, a pointer to the bytes of a text: its layout, its check and the methods that read it.
ghost use Rattle.std.specs.Prelude.{◌≡◌, ℕ, length, [], refl, ⊤};
ghost use Rattle.std.proofs.Common.{lit<, lit≤};
ghost use Rattle.archive_shape_layout.specs.Shape.Shape.{box};
ghost use Rattle.archive_shape_layout.specs.Shape.Pointee.{str};
ghost use Rattle.archive_forms_values.specs.Parts.{HasValue};
ghost use Rattle.archive_forms_values.specs.Boxes.{IsBoxedStrAt};
ghost use Rattle.archive_forms_values.specs.Calls.Texts.{ReadsBoxedStr, WritesText};

use crate::reading::target_of;
use crate::text::{check_behind, write_at};
use archive_shape::{
    ArchiveContext, ArchivedIsize, CheckBytes, Error, NoUndef, Pointee, Portable, Ref, RelPtr,
    Seal, Shape, Str,
};
use std::alloc::{AllocError, Global};

/// An archived box of a text, as rkyv's `ArchivedBox<str>`: an offset of four bytes that leads to the text, and four
/// bytes with its length in bytes.
#[derive(Clone, Copy, Debug, PartialEq, Eq)]
pub struct ArchivedBoxedStr;

impl NoUndef for ArchivedBoxedStr {}

impl Portable for ArchivedBoxedStr {
    ghost SIZE = { 8 };

    ghost ALIGN = { 4 };

    ghost shape = { box str };

    ghost knows = { λ _. ⊤ };

    ghost named = { [] };

    const SIZE: usize = 8;

    const ALIGN: usize = 4;

    fn shape(_alloc: Global) -> Result<Shape, AllocError> {
        Ok(Shape::Boxed(Pointee::Text))
    }

    ghost sized = { refl };

    ghost aligned = { refl };

    ghost aligns = { (lit< tt, lit≤ tt) };

    ghost known = { λ _ _. tt };
}

impl<C: ArchiveContext> CheckBytes<C> for ArchivedBoxedStr {
    fn check(_alloc: Global, bytes: &[u8], pos: usize, context: &mut C) -> Result<(), Error> {
        let _len = bytes.len();
        let pointer = Ref::<RelPtr<Str, ArchivedIsize>>::new(bytes, pos);
        let len = RelPtr::metadata(pointer);
        let Some(start) = RelPtr::target(pointer) else {
            return Err(Error::InvalidSubtreePointer { size: len });
        };
        check_behind(bytes, start, len, context)
    }
}

/// Returns the position of the text of the box at `pos`, and its length in bytes.
fn text_at(bytes: &[u8], pos: usize) -> (usize, usize)
    requires { HasValue (box str) (λ _. ⊤) bytes.now pos }
    ensures { IsBoxedStrAt bytes.now pos result.0 result.1 }
{
    let len = RelPtr::metadata(Ref::<RelPtr<Str, ArchivedIsize>>::new(bytes, pos));
    (target_of(bytes, pos), len)
}

impl ArchivedBoxedStr {
    /// Returns the text.
    pub fn get<'a>(this: Ref<'a, ArchivedBoxedStr>) -> &'a str
        requires { HasValue (box str) (λ _. ⊤) this.bytes.now this.pos }
        ensures { ReadsBoxedStr this.entry result.now }
    {
        let (start, len) = text_at(this.bytes, this.pos);
        // The bytes there are UTF-8.
        unsafe { std::str::from_utf8_unchecked(&this.bytes[start..start + len]) }
    }

    /// Returns the text's bytes, which may be edited. They have the length of the text that `get` returns. The contents
    /// of the buffer after the loan are not specified.
    pub fn get_seal<'a>(this: Seal<'a, ArchivedBoxedStr>) -> Seal<'a, Str>
        requires { HasValue (box str) (λ _. ⊤) this.bytes.now this.pos }
        ensures same_reference { result.bytes.ghost_name ≡ this.entry.bytes.ghost_name }
        ensures bytes { result.bytes.now ≡ this.entry.bytes.now }
        ensures text { (len : ℕ) × IsBoxedStrAt this.entry.bytes.now this.entry.pos result.pos len }
    {
        let Seal { bytes, pos, .. } = this;
        let (start, _) = text_at(bytes, pos);
        Seal::new(bytes, start)
    }

    /// Writes a text over the present one, and consumes the seal. It has as many bytes as the present one.
    pub fn write_text(this: Seal<'_, ArchivedBoxedStr>, text: &str)
        requires there { HasValue (box str) (λ _. ⊤) this.bytes.now this.pos }
        requires same_length { (to : ℕ) × IsBoxedStrAt this.bytes.now this.pos to (length text.now) }
        ensures { WritesText IsBoxedStrAt this.entry text.now this.exit.0.now }
    {
        let Seal { bytes, pos, .. } = this;
        let (start, _) = text_at(bytes, pos);
        write_at(bytes, start, text);
    }
}
