//! Reads escaped texts: whether bytes are one, and the text that they represent.
ghost use Rattle.std.specs.Prelude.{◌≡◌, ◌≢◌, ℕ, ◌<◌, ◌≤◌, true, [], ◌++◌, length, slice_index, string_bytes, IsUtf8, IfOk, OnErr};
ghost use Rattle.std.specs.Bool.{OnTrue, OnFalse};
ghost use Rattle.std.specs.List.{list_all};
ghost use Rattle.cabinet_text_bytes.specs.Calls.{ReadsFirstByte, ReadsLength, ReadsEscaped, ReadsText};
ghost use Rattle.cabinet_text_bytes.specs.Words.{IsEscaped, is_plain_byte};
ghost use Rattle.cabinet_text_grammar.specs.Spelling.{escaped};

use std::alloc::{AllocError, Global};

/// Returns the byte that an escaped text begins with, and the bytes after its escaped form.
pub fn first_byte(escaped_text: &[u8]) -> Option<(u8, &[u8])>
    ensures { ReadsFirstByte escaped_text.now result }
{
    match escaped_text {
        [b'\\', b'\\', rest @ ..] => Some((b'\\', rest)),
        [b'\\', b'n', rest @ ..] => Some((b'\n', rest)),
        [b'\\', b's', rest @ ..] => Some((b' ', rest)),
        [] | [b'\\' | b'\n' | b' ', ..] => None,
        [byte, rest @ ..] => Some((*byte, rest)),
    }
}

/// Returns whether a byte is above a space and no backslash.
fn is_plain_byte(byte: u8) -> bool
    ensures { result ≡ is_plain_byte byte }
{
    (byte > b' ') & (byte != b'\\')
}

/// Returns whether each byte is plain. Such a text is the escaped form of itself. Eight bytes at a time are tested
/// without a branch, so that LLVM tests them at once.
fn is_plain(bytes: &[u8]) -> bool
    ensures { result ≡ list_all is_plain_byte bytes.now }
{
    let mut rest = bytes;
    while let [a, b, c, d, e, f, g, h, after @ ..] = rest {
        if !(is_plain_byte(*a)
            & is_plain_byte(*b)
            & is_plain_byte(*c)
            & is_plain_byte(*d)
            & is_plain_byte(*e)
            & is_plain_byte(*f)
            & is_plain_byte(*g)
            & is_plain_byte(*h))
        {
            return false;
        }
        rest = after;
    }
    rest.iter().all(|byte| is_plain_byte(*byte))
}

/// Returns the length of the text that bytes are the escaped form of, if there is one.
pub fn unescaped_len(argument: &[u8]) -> Option<usize>
    ensures { ReadsLength argument.now result }
{
    if is_plain(argument) {
        Some(argument.len())
    } else {
        count_bytes(argument)
    }
}

/// Returns the same length, counted byte by byte.
fn count_bytes(argument: &[u8]) -> Option<usize>
    ensures { ReadsLength argument.now result }
{
    let mut rest = argument;
    let mut len = 0;
    while !rest.is_empty() {
        let Some((_, after)) = first_byte(rest) else {
            return None;
        };
        rest = after;
        len += 1;
    }
    Some(len)
}

/// Returns whether bytes are the escaped form of a text.
pub fn is_escaped(argument: &[u8]) -> bool
    ensures yes { OnTrue result (IsEscaped argument.now) }
    ensures no { OnFalse result (IsEscaped argument.now → ⊥) }
{
    match std::str::from_utf8(argument) {
        Ok(_) => unescaped_len(argument).is_some(),
        Err(_) => false,
    }
}

/// Returns the number of bytes before the first that is not plain.
fn plain_len(bytes: &[u8]) -> usize
    ensures within { result ≤ length bytes.now }
    ensures plain { (k : ℕ) → k < result → is_plain_byte (slice_index bytes.now k) ≡ true }
{
    match bytes.iter().position(|byte| !is_plain_byte(*byte)) {
        Some(len) => len,
        None => bytes.len(),
    }
}

/// Splits bytes at the first that is not plain. Those before it are the escaped form of themselves.
fn split_plain(bytes: &[u8]) -> (&[u8], &[u8])
    ensures whole { bytes.now ≡ result.0.now ++ result.1.now }
    ensures plain { result.0.now ≡ escaped result.0.now }
{
    bytes.split_at(plain_len(bytes))
}

/// Returns the bytes that bytes are the escaped form of, if there are such. No bytes take no memory.
fn unescape(alloc: Global, argument: &[u8]) -> Result<Option<Vec<u8>>, AllocError>
    ensures text { IfOk result (ReadsEscaped argument.now) }
    ensures memory { OnErr result (argument.now ≢ []) }
{
    let mut text = Vec::with_capacity(alloc, argument.len())?;
    if is_plain(argument) {
        text.extend_from_slice(argument)?;
        return Ok(Some(text));
    }
    let mut rest = argument;
    loop {
        let (run, special) = split_plain(rest);
        text.extend_from_slice(run)?;
        let Some((byte, after)) = first_byte(special) else {
            if special.is_empty() {
                return Ok(Some(text));
            }
            return Ok(None);
        };
        text.push(byte)?;
        rest = after;
    }
}

/// Returns the text that escaped bytes represent. An empty text takes no memory.
pub fn unescape_text(alloc: Global, argument: &[u8]) -> Result<String, AllocError>
    requires { IsEscaped argument.now }
    ensures text { IfOk result (λ text. argument.now ≡ escaped (string_bytes text)) }
    ensures memory { OnErr result (argument.now ≢ []) }
{
    match unescape(alloc, argument)? {
        Some(bytes) => Ok(unsafe { String::from_utf8_unchecked(bytes) }),
        None => unreachable!(),
    }
}

/// Returns the text that bytes are the escaped form of, if there is one. An empty text takes no memory.
pub fn try_unescape(alloc: Global, argument: &[u8]) -> Result<Option<String>, AllocError>
    requires { IsUtf8 argument.now }
    ensures text { IfOk result (ReadsText argument.now) }
    ensures memory { OnErr result (IsEscaped argument.now × (argument.now ≢ [])) }
{
    match unescape(alloc, argument) {
        Ok(Some(bytes)) => Ok(Some(unsafe { String::from_utf8_unchecked(bytes) })),
        Ok(None) => Ok(None),
        Err(e) => match unescaped_len(argument) {
            Some(_) => Err(e),
            None => Ok(None),
        },
    }
}
