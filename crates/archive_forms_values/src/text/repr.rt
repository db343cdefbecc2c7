//! The eight own bytes of an archived text, and what they encode.
ghost use Rattle.std.specs.Prelude.{◌≡◌, ◌+◌, ◌↔◌, ◌<◌, ◌≤◌, ◌^◌, length, slice_index, IsTrue};
ghost use Rattle.std.specs.Int.{w32, cast_signed};
ghost use Rattle.archive_shape_layout.specs.Bytes.{word_at, target_from};
ghost use Rattle.archive_shape_layout.specs.Content.{IsInline, before_ff, text_length};
ghost use Rattle.archive_forms_laws.specs.Text.{own_bytes, HasText, IsText};
ghost use Rattle.archive_forms_values.specs.Repr.{length_of};

/// Returns the eight own bytes of the text at `pos`.
pub(crate) fn own_bytes(bytes: &[u8], pos: usize) -> &[u8]
    requires { pos + 8 ≤ length bytes.now }
    ensures own { result.now ≡ own_bytes bytes.now pos }
    ensures eight { length result.now ≡ 8 }
{
    &bytes[pos..pos + 8]
}

/// Returns the bytes before the first `0xff`, or all of them if there is none.
pub(crate) fn before_filler(own: &[u8]) -> &[u8]
    ensures bytes { result.now ≡ before_ff own.now }
    ensures within { length result.now ≤ length own.now }
{
    for (end, byte) in own.iter().enumerate() {
        if *byte == 0xff {
            return &own[..end];
        }
    }
    own
}

/// Returns the length in bytes of a text out of line.
pub(crate) fn out_of_line_len(own: &[u8]) -> usize
    requires { length own.now ≡ 8 }
    ensures length { result ≡ text_length (word_at own.now 0) }
    ensures capacity { result ≤ ArchivedStringRepr.OUT_OF_LINE_CAPACITY }
{
    let word = u32::from_le_bytes([own[0], own[1], own[2], own[3]]) as usize;
    word % 64 + word / 256 * 64
}

/// Returns the position of the bytes of a text out of line whose own bytes lie at `pos`, or `None` if the offset leads
/// before the first byte.
pub(crate) fn out_of_line_start(own: &[u8], pos: usize) -> Option<usize>
    requires eight { length own.now ≡ 8 }
    requires small { pos < 2 ^ 63 }
    ensures { result ≡ target_from pos (word_at own.now 4) }
{
    pos.checked_add_signed(ArchivedStringRepr::out_of_line_offset(own))
}

/// The functions that decode the eight own bytes of an archived text.
pub struct ArchivedStringRepr;

impl ArchivedStringRepr {
    /// The greatest length of a text inline, in bytes.
    pub const INLINE_CAPACITY: usize = 8;

    /// The greatest length of a text out of line, in bytes.
    pub const OUT_OF_LINE_CAPACITY: usize = (1 << 30) - 1;

    /// Returns `true` if the text lies in its eight own bytes.
    pub fn is_inline(own: &[u8]) -> bool
        requires { length own.now ≡ 8 }
        ensures { IsTrue result ↔ IsInline (slice_index own.now 0) }
    {
        own[0] < 0x80 || 0xc0 <= own[0]
    }

    /// Returns the length of the text in bytes.
    pub fn len(own: &[u8]) -> usize
        requires { length own.now ≡ 8 }
        ensures length { result ≡ length_of own.now }
        ensures inline_capacity { IsInline (slice_index own.now 0)
            → result ≤ ArchivedStringRepr.INLINE_CAPACITY }
        ensures capacity { result ≤ ArchivedStringRepr.OUT_OF_LINE_CAPACITY }
    {
        if ArchivedStringRepr::is_inline(own) {
            before_filler(own).len()
        } else {
            out_of_line_len(own)
        }
    }

    /// Returns `true` if the text has no bytes.
    pub fn is_empty(own: &[u8]) -> bool
        requires { length own.now ≡ 8 }
        ensures { IsTrue result ↔ (length_of own.now ≡ 0) }
    {
        ArchivedStringRepr::len(own) == 0
    }

    /// Returns the bytes of the text at `pos`, inline or out of line.
    pub fn as_bytes(bytes: &[u8], pos: usize) -> &[u8]
        requires { HasText bytes.now pos }
        ensures { IsText bytes.now pos result.now }
    {
        let own = own_bytes(bytes, pos);
        if ArchivedStringRepr::is_inline(own) {
            return before_filler(own);
        }
        let len = out_of_line_len(own);
        let start = out_of_line_start(own, pos).unwrap();
        &bytes[start..start + len]
    }

    /// Returns the offset of the bytes of a text out of line, in bytes from the text's own position.
    pub fn out_of_line_offset(own: &[u8]) -> isize
        requires { length own.now ≡ 8 }
        ensures { result ≡ cast_signed w32 (word_at own.now 4) }
    {
        i32::from_le_bytes([own[4], own[5], own[6], own[7]]) as isize
    }
}
