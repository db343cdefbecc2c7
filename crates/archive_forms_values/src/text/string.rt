//! `ArchivedString`: its layout and the methods that read it.
ghost use Rattle.std.specs.Prelude.{◌≡◌, ◌+◌, ◌≤◌, ℕ, length, [], refl, ⊤};
ghost use Rattle.std.proofs.Common.{lit<, lit≤};
ghost use Rattle.archive_shape_layout.specs.Shape.Shape.{text};
ghost use Rattle.archive_shape.specs.Bytes.{overwrite};
ghost use Rattle.archive_forms_laws.specs.Text.{HasText, IsText, HasLength, LiesAt};
ghost use Rattle.archive_forms_values.specs.Repr.{length_of};
ghost use Rattle.archive_forms_values.specs.Calls.Texts.{TellsEmptyText, WritesText, PutsText};

use crate::text::ArchivedStringRepr;
use crate::text::repr::{out_of_line_start, own_bytes};
use archive_shape::{Error, NoUndef, OwnSeal, Portable, Ref, Seal, Shape, Str};
use std::alloc::{AllocError, Global};

/// An archived text of eight own bytes: the text itself if it has at most eight bytes, and otherwise its length and the
/// offset of its bytes.
#[derive(Clone, Copy, Debug, PartialEq, Eq)]
pub struct ArchivedString;

impl NoUndef for ArchivedString {}

impl Portable for ArchivedString {
    ghost SIZE = { 8 };

    ghost ALIGN = { 4 };

    ghost shape = { text };

    ghost knows = { λ _. ⊤ };

    ghost named = { [] };

    const SIZE: usize = 8;

    const ALIGN: usize = 4;

    fn shape(_alloc: Global) -> Result<Shape, AllocError> {
        Ok(Shape::Text)
    }

    ghost sized = { refl };

    ghost aligned = { refl };

    ghost aligns = { (lit< tt, lit≤ tt) };

    ghost known = { λ _ _. tt };
}

/// Returns the position of the bytes of the text at `pos`.
fn start_of(bytes: &[u8], pos: usize) -> usize
    requires { HasText bytes.now pos }
    ensures { (len : ℕ) × LiesAt bytes.now pos result len }
{
    let own = own_bytes(bytes, pos);
    if ArchivedStringRepr::is_inline(own) {
        return pos;
    }
    out_of_line_start(own, pos).unwrap()
}

/// Writes the bytes of a text at `start`.
pub(crate) fn write_at(bytes: &mut [u8], start: usize, text: &str)
    requires { start + length text.now ≤ length bytes.old }
    ensures { bytes.new ≡ overwrite bytes.old start text.now }
{
    let end = start + text.len();
    bytes[start..end].copy_from_slice(text.as_bytes());
}

impl ArchivedString {
    /// Returns the position of the text's bytes.
    pub fn start_of(this: Ref<'_, ArchivedString>) -> usize
        requires { HasText this.bytes.now this.pos }
        ensures { (len : ℕ) × LiesAt this.entry.bytes.now this.entry.pos result len }
    {
        start_of(this.bytes, this.pos)
    }

    /// Returns the bytes of the text.
    pub fn as_bytes<'a>(this: Ref<'a, ArchivedString>) -> &'a [u8]
        requires { HasText this.bytes.now this.pos }
        ensures { IsText this.entry.bytes.now this.entry.pos result.now }
    {
        ArchivedStringRepr::as_bytes(this.bytes, this.pos)
    }

    /// Returns the text.
    pub fn as_str<'a>(this: Ref<'a, ArchivedString>) -> &'a str
        requires { HasText this.bytes.now this.pos }
        ensures { IsText this.entry.bytes.now this.entry.pos result.now }
    {
        // The bytes there are UTF-8.
        unsafe { std::str::from_utf8_unchecked(ArchivedString::as_bytes(this)) }
    }

    /// Returns the text's bytes, which may be edited. They are `len` bytes. The contents of the buffer after the loan
    /// are not specified.
    pub fn as_str_seal<'a>(this: Seal<'a, ArchivedString>) -> Seal<'a, Str>
        requires { HasText this.bytes.now this.pos }
        ensures same_reference { result.bytes.ghost_name ≡ this.entry.bytes.ghost_name }
        ensures bytes { result.bytes.now ≡ this.entry.bytes.now }
        ensures text { (len : ℕ) × LiesAt this.entry.bytes.now this.entry.pos result.pos len }
    {
        let Seal { bytes, pos, .. } = this;
        let start = start_of(bytes, pos);
        Seal::new(bytes, start)
    }

    /// Writes a text over the present one, inline or out of line, and consumes the seal. It has as many bytes as the
    /// present one.
    pub fn write_text(this: Seal<'_, ArchivedString>, text: &str)
        requires { HasLength this.bytes.now this.pos (length text.now) }
        ensures { WritesText LiesAt this.entry text.now this.exit.0.now }
    {
        let Seal { bytes, pos, .. } = this;
        let start = start_of(bytes, pos);
        write_at(bytes, start, text);
    }

    /// Writes a text over the present one in its own bytes, where it is inline. It has as many bytes as the present
    /// one, which `ArchivedStringRepr::len` returns. The seal can be used again.
    ///
    /// Returns `InvalidSubtreePointer` with the number of the text's bytes if these are out of line, where the seal has
    /// no access to them.
    pub fn put_text(this: &mut OwnSeal<'_, ArchivedString>, text: &str) -> Result<(), Error>
        requires eight { length this.old.own.now ≡ 8 }
        requires same_length { length_of this.old.own.now ≡ length text.now }
        ensures same_reference { this.new.own.ghost_name ≡ this.old.own.ghost_name }
        ensures pos { this.new.pos ≡ this.old.pos }
        ensures contents { PutsText this.old text.now result this.new }
    {
        let size = text.len();
        if !ArchivedStringRepr::is_inline(this.as_ref().bytes) {
            return Err(Error::InvalidSubtreePointer { size });
        }
        write_at(this.own, 0, text);
        Ok(())
    }

    /// Returns the length of the text in bytes.
    pub fn len(this: Ref<'_, ArchivedString>) -> usize
        requires { HasText this.bytes.now this.pos }
        ensures { HasLength this.entry.bytes.now this.entry.pos result }
    {
        ArchivedStringRepr::len(own_bytes(this.bytes, this.pos))
    }

    /// Returns `true` if the text has no bytes.
    pub fn is_empty(this: Ref<'_, ArchivedString>) -> bool
        requires { HasText this.bytes.now this.pos }
        ensures { TellsEmptyText this.entry result }
    {
        ArchivedString::len(this) == 0
    }
}
