//! Tests of the writing of texts over others.
ghost use Rattle.std.specs.Prelude.{◌≡◌, ◌+◌, ◌≤◌, length};
ghost use Rattle.archive_forms_values.specs.Repr.{length_of};

use super::checked::checked;
use archive_forms_values::{ArchivedBoxedStr, ArchivedString, ArchivedStringRepr};
use archive_shape::{Error, OwnSeal, Seal};
use std::alloc::Global;

/// Writes a text over the one at `pos`, if it has as many bytes.
fn written(alloc: Global, bytes: &mut [u8], pos: usize, text: &str) -> Result<bool, Error>
    requires { pos + 8 ≤ length bytes.old }
{
    match checked(alloc, bytes, pos) {
        Ok(there) => {
            if ArchivedString::len(there) != text.len() {
                return Ok(false);
            }
        }
        Err(e) => return Err(e),
    }
    ArchivedString::write_text(Seal::new(bytes, pos), text);
    Ok(true)
}

/// The bytes of a text out of line, and then its own.
const LONG: [u8; 20] = *b"hello there.\x8c\0\0\0\xf4\xff\xff\xff";

/// Writes a text over the one at `pos`, and returns whether the bytes are `wanted` then, and a text of another length is
/// not written.
fn is_written(alloc: Global, bytes: &mut [u8], pos: usize, texts: [&str; 2], wanted: &[u8]) -> bool
    requires { pos + 8 ≤ length bytes.old }
{
    let [text, other] = texts;
    written(alloc, bytes, pos, text) == Ok(true)
        && &*bytes == wanted
        && written(alloc, bytes, pos, other) == Ok(false)
}

#[test]
fn texts_are_written_over_others(rt: HostRuntime) {
    let mut bytes = LONG;
    let wanted = b"HELLO THERE!\x8c\0\0\0\xf4\xff\xff\xff";
    assert!(rt;
        is_written(
            rt.alloc(),
            &mut bytes,
            12,
            ["HELLO THERE!", "HELLO"],
            wanted
        )
    );
    let mut inline = *b"..world\xff\xff\xff";
    let wanted = b"..WORLD\xff\xff\xff";
    assert!(rt; is_written(rt.alloc(), &mut inline, 2, ["WORLD", "WORLDS"], wanted));
}

/// Puts a text over the one whose own bytes these are, if it has as many bytes.
fn put(own: &mut [u8; 8], text: &str) -> Result<bool, Error> {
    if ArchivedStringRepr::len(own) != text.len() {
        return Ok(false);
    }
    let mut seal = OwnSeal::<ArchivedString>::new(own, 16);
    match ArchivedString::put_text(&mut seal, text) {
        Ok(()) => Ok(true),
        Err(e) => Err(e),
    }
}

#[test]
fn texts_are_put_in_their_own_bytes(rt: HostRuntime) {
    let mut own = *b"world\xff\xff\xff";
    assert!(rt;
        put(&mut own, "WORLD") == Ok(true)
            && own == *b"WORLD\xff\xff\xff"
            && put(&mut own, "WORLDS") == Ok(false)
    );
    let mut far = *b"\x8c\0\0\0\xf4\xff\xff\xff";
    assert!(rt;
        put(&mut far, "HELLO THERE!") == Err(Error::InvalidSubtreePointer { size: 12 })
            && far == *b"\x8c\0\0\0\xf4\xff\xff\xff"
    );
}
