//! The check of archived texts.
ghost use Rattle.std.specs.Prelude.{◌≡◌, ◌↔◌, ◌==◌, ◌||◌, length, nat_lt, IsTrue, IsUtf8};
ghost use Rattle.std.specs.List.{list_all};
ghost use Rattle.archive_shape.specs.Kept.{IsWithin};
ghost use Rattle.archive_shape.specs.Checks.{Moves};
ghost use Rattle.archive_forms_values.specs.Calls.Checking.{ChecksText};

use crate::text::repr::{before_filler, out_of_line_len, out_of_line_start, own_bytes};
use crate::text::{ArchivedString, ArchivedStringRepr};
use archive_shape::{ArchiveContext, CheckBytes, Error};
use std::alloc::Global;

/// Returns whether all bytes are ASCII, which are tested one by one.
fn are_ascii(bytes: &[u8]) -> bool
    ensures { result ≡ list_all (λ b. nat_lt b 128) bytes.now }
{
    bytes.iter().all(|byte| *byte < 0x80)
}

/// Returns whether all bytes are ASCII. Eight at a time are tested without a branch, so that LLVM tests them at once. It is
/// inlined, as what calls it is, since most texts are a few bytes long.
#[inline(always)]
fn is_ascii(bytes: &[u8]) -> bool
    ensures { result ≡ list_all (λ b. nat_lt b 128) bytes.now }
{
    let mut rest = bytes;
    while let [a, b, c, d, e, f, g, h, after @ ..] = rest {
        if !((*a < 0x80)
            & (*b < 0x80)
            & (*c < 0x80)
            & (*d < 0x80)
            & (*e < 0x80)
            & (*f < 0x80)
            & (*g < 0x80)
            & (*h < 0x80))
        {
            return false;
        }
        rest = after;
    }
    are_ascii(rest)
}

/// Returns whether bytes are UTF-8. Most texts are ASCII, which is tested first since it is tested faster.
#[inline(always)]
fn is_utf8(bytes: &[u8]) -> bool
    ensures { IsTrue result ↔ IsUtf8 bytes.now }
{
    is_ascii(bytes) || std::str::from_utf8(bytes).is_ok()
}

/// Returns whether a byte is ASCII or the filler of a text inline.
fn is_ascii_or_filler(byte: u8) -> bool
    ensures { result ≡ (nat_lt byte 128 || byte == 255) }
{
    (byte < 0x80) | (byte == 0xff)
}

/// Returns whether each of the eight own bytes of a text inline is ASCII or the filler, as is the case for most texts. They
/// are tested without a branch, so that LLVM tests them at once, and the filler is not searched for.
fn is_short_ascii(own: &[u8]) -> bool
    requires { length own.now ≡ 8 }
    ensures { result ≡ list_all (λ b. nat_lt b 128 || b == 255) own.now }
{
    match own {
        [a, b, c, d, e, f, g, h] => {
            is_ascii_or_filler(*a)
                & is_ascii_or_filler(*b)
                & is_ascii_or_filler(*c)
                & is_ascii_or_filler(*d)
                & is_ascii_or_filler(*e)
                & is_ascii_or_filler(*f)
                & is_ascii_or_filler(*g)
                & is_ascii_or_filler(*h)
        }
        _ => false,
    }
}

/// Claims the `len` bytes at `start`, and then checks that they are UTF-8.
///
/// Returns `InvalidSubtreePointer` with `len` if the bytes are not in the range, then `ExceededMaximumSubtreeDepth`,
/// and then `InvalidUtf8` if they are not a text. It does not allocate.
#[inline(always)]
pub fn check_behind<C: ArchiveContext>(
    bytes: &[u8],
    start: usize,
    len: usize,
    context: &mut C,
) -> Result<(), Error>
    requires { IsWithin (C.kept context.old) (length bytes.now) }
    ensures moves { Moves (C.kept context.old) result (C.kept context.new) }
    ensures exact { ChecksText C.kept bytes.now start len context.old result context.new }
{
    let _len = bytes.len();
    context.claim_bytes(start, len)?;
    if is_utf8(&bytes[start..start + len]) {
        Ok(())
    } else {
        Err(Error::InvalidUtf8)
    }
}

impl<C: ArchiveContext> CheckBytes<C> for ArchivedString {
    fn check(_alloc: Global, bytes: &[u8], pos: usize, context: &mut C) -> Result<(), Error> {
        let own = own_bytes(bytes, pos);
        if ArchivedStringRepr::is_inline(own) {
            if is_short_ascii(own) {
                return Ok(());
            }
            return if is_utf8(before_filler(own)) {
                Ok(())
            } else {
                Err(Error::InvalidUtf8)
            };
        }
        let len = out_of_line_len(own);
        if len <= ArchivedStringRepr::INLINE_CAPACITY {
            return Err(Error::CheckStringRepr);
        }
        let Some(start) = out_of_line_start(own, pos) else {
            return Err(Error::InvalidSubtreePointer { size: len });
        };
        check_behind(bytes, start, len, context)
    }
}
