//! The functions that C calls.
ghost use Rattle.std.specs.Prelude.{◌≡◌};
ghost use Rattle.cabinet_text_grammar.specs.Tree.{Tree};
ghost use Rattle.cabinet_documents.specs.Accepted.{Accepted};
ghost use Rattle.cabinet.specs.ByteCalls.{Checks, Asks, Sets, Builds, Loads};
ghost use Rattle.cabinet.specs.Codes.{IsCodeOf};

use cabinet::calls::{ask, build, check, load, set};
use std::alloc::Global;

/// Checks that bytes are the archive of a document. Returns the code of `Ok`, of a refusal to open, or of `OutOfMemory`.
///
/// Of its C caller it asks that the length is that of the bytes, and that nothing changes them meanwhile.
#[unsafe(no_mangle)]
pub extern "C" fn cabinet_c_check(alloc: Global, archive: &[u8]) -> u32
    ensures { IsCodeOf result (Checks archive.now) }
{
    check(alloc, archive).code()
}

/// Answers a line that is a question, and puts the answer's line, with its newline, at the front of the buffer. Returns
/// the code of `Ok`, `Missing` or `Wrong`, as the answer is, of `Short` where the buffer has fewer bytes, of `Bad` where
/// the bytes are no line or an edit, or of `OutOfMemory`. `written` is the number of the answer's bytes, or 0.
///
/// Of its C caller it asks that the bytes of the archive were accepted by `cabinet_c_check`, and changed by
/// `cabinet_c_set` alone since then; that each length is that of its bytes; that the archive, the line, the buffer and
/// `written` share no byte; and that no other call uses the archive or the buffer meanwhile.
#[unsafe(no_mangle)]
pub extern "C" fn cabinet_c_ask(
    alloc: Global,
    archive: &mut [u8],
    line: &[u8],
    buffer: &mut [u8],
    written: &mut usize,
) -> u32
    requires { ∥ ((t : Tree) × Accepted archive.old t) ∥₁ }
    ensures same { archive.new ≡ archive.old }
    ensures asks { IsCodeOf result (Asks archive.old line.now buffer.old buffer.new written.new) }
{
    ask(alloc, archive, line, buffer, written).code()
}

/// Carries out a line that is an edit, in the bytes of the archive. Returns the code of `Ok`, `Missing` or `Refused`, as
/// the answer is, of `Bad` where the bytes are no line or a question, or of `OutOfMemory`.
///
/// Of its C caller it asks the same as `cabinet_c_ask`. The bytes stay accepted.
#[unsafe(no_mangle)]
pub extern "C" fn cabinet_c_set(alloc: Global, archive: &mut [u8], line: &[u8]) -> u32
    requires { ∥ ((t : Tree) × Accepted archive.old t) ∥₁ }
    ensures kept { ∥ ((t : Tree) × Accepted archive.new t) ∥₁ }
    ensures sets { IsCodeOf result (Sets line.now archive.old archive.new) }
{
    set(alloc, archive, line).code()
}

/// Makes the archive of the document that has this text, and puts it at the front of the buffer. Returns the code of
/// `Ok`, of `Short` where the buffer has fewer bytes, of the cause for which the text is refused, of `Limit` or of
/// `OutOfMemory`. `written` is the number of the archive's bytes, or 0. `line` is the line for which the text is refused,
/// counted from 1, or 0.
///
/// Of its C caller it asks that each length is that of its bytes; that the text, the buffer, `written` and `line` share
/// no byte; and that no other call uses the buffer, or changes the text, meanwhile.
#[unsafe(no_mangle)]
pub extern "C" fn cabinet_c_build(
    alloc: Global,
    text: &[u8],
    buffer: &mut [u8],
    written: &mut usize,
    line: &mut usize,
) -> u32
    ensures { IsCodeOf result (Builds text.now buffer.old buffer.new written.new line.new) }
{
    build(alloc, text, buffer, written, line).code()
}

/// Checks bytes, loads the document that they are the archive of, and puts its text at the front of the buffer. Returns
/// the code of `Ok`, of `Short` where the buffer has fewer bytes, of a refusal to open, or of `OutOfMemory`. `written` is
/// the number of the text's bytes, or 0.
///
/// Of its C caller it asks that each length is that of its bytes; that the archive, the buffer and `written` share no
/// byte; and that no other call uses the buffer, or changes the archive, meanwhile.
#[unsafe(no_mangle)]
pub extern "C" fn cabinet_c_load(
    alloc: Global,
    archive: &[u8],
    buffer: &mut [u8],
    written: &mut usize,
) -> u32
    ensures { IsCodeOf result (Loads archive.now buffer.old buffer.new written.new) }
{
    load(alloc, archive, buffer, written).code()
}
