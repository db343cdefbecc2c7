//! The writing of archived texts, once the position of their bytes is known.
ghost use Rattle.std.specs.Prelude.{◌≡◌, ◌+◌, ◌≤◌, ◌<◌, ◌^◌, ◌++◌, ℤ, length, FitsSigned};
ghost use Rattle.std.specs.Int.{w32, to_le_bytes, cast_unsigned};
ghost use Rattle.archive_forms_laws.specs.Texts.{inline_bytes, length_word};
ghost use Rattle.archive_forms_values.specs.Calls.Writing.{MakesOwnText, ResolvesText};

use crate::text::{ArchivedString, ArchivedStringRepr};
use archive_shape::{Error, Place, signed_offset};

/// The position of the bytes of a text out of line. For a text inline the position is not used.
#[derive(Clone, Copy, Debug, PartialEq, Eq)]
pub struct StringResolver {
    pub pos: usize,
}

impl StringResolver {
    /// Creates a resolver for bytes at `pos`.
    pub const fn from_pos(pos: usize) -> Self
        ensures { result.pos ≡ pos }
    {
        StringResolver { pos }
    }
}

/// Returns the own bytes of a text inline.
fn inline_own(text: &[u8]) -> [u8; 8]
    requires { length text.now ≤ 8 }
    ensures { result ≡ inline_bytes text.now }
{
    let mut own = [0xff; 8];
    own[..text.len()].copy_from_slice(text);
    own
}

/// Returns the own bytes of a text out of line.
fn out_of_line_own(len: usize, offset: i32) -> [u8; 8]
    requires { len < 2 ^ 30 }
    ensures { result ≡ to_le_bytes w32 (length_word len) ++ to_le_bytes w32 (cast_unsigned w32 offset) }
{
    let word = (len % 64 + 128 + len / 64 * 256) as u32;
    let mut own = [0; 8];
    own[..4].copy_from_slice(&word.to_le_bytes());
    own[4..].copy_from_slice(&offset.to_le_bytes());
    own
}

/// Returns the own bytes of a text at `pos`, whose bytes lie at `to` if it is out of line.
fn own_of(text: &[u8], to: usize, pos: usize) -> Result<[u8; 8], Error>
    ensures { MakesOwnText text.now to pos result }
{
    if text.len() <= ArchivedStringRepr::INLINE_CAPACITY {
        return Ok(inline_own(text));
    }
    if text.len() > ArchivedStringRepr::OUT_OF_LINE_CAPACITY {
        return Err(Error::StringTooLong);
    }
    let Ok(difference) = signed_offset(pos, to) else {
        return Err(Error::IsizeOverflow);
    };
    let Ok(offset) = i32::try_from(difference) else {
        return Err(Error::IsizeOverflow);
    };
    Ok(out_of_line_own(text.len(), offset))
}

impl ArchivedString {
    /// Writes the text: inline if it has at most eight bytes, and otherwise as its length and the offset of its bytes,
    /// which lie at the resolver's position.
    ///
    /// Returns `StringTooLong` for more than `ArchivedStringRepr::OUT_OF_LINE_CAPACITY` bytes, and then `IsizeOverflow`
    /// if the offset does not fit in an `i32`.
    pub fn resolve_from_str(
        value: &str,
        resolver: StringResolver,
        out: Place<'_, ArchivedString>,
    ) -> Result<(), Error>
        requires { out.start + 8 ≤ length out.out.now }
        ensures { ResolvesText value.now resolver.pos out.entry result out.exit.0.now }
    {
        let Place {
            out,
            start,
            pos,
            ..
        } = out;
        let own = own_of(value.as_bytes(), resolver.pos, pos)?;
        let end = start + 8;
        out[start..end].copy_from_slice(&own);
        Ok(())
    }
}
