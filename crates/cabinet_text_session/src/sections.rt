//! Splits an input into sections: a document's text, a line `lines`, lines about it, and a line `end`; or, as the last one, a
//! line `copy` and a text up to the end of the input.
ghost use Rattle.std.specs.Prelude.{◌<◌, length, IfSome};

use cabinet_text_bytes::newline_in;

/// A section of an input.
#[derive(Drop)]
pub enum Section<'a> {
    /// A document's text, and lines about the document.
    Lines { text: &'a [u8], lines: &'a [u8] },
    /// A text that is to be written again.
    Copy(&'a [u8]),
}

/// Returns the bytes before the first newline, and those after it.
pub fn first_line(bytes: &[u8]) -> (&[u8], &[u8])
    requires { 0 < length bytes.now }
    ensures { length result.1.now < length bytes.now }
{
    match newline_in(bytes) {
        Some(end) => (&bytes[..end], &bytes[end + 1..]),
        None => (bytes, &[]),
    }
}

/// Returns the bytes before the first line that is the mark, and those after that line.
fn split_at_mark<'a>(input: &'a [u8], mark: &[u8]) -> Option<(&'a [u8], &'a [u8])>
    ensures { IfSome result (λ p. length p.1.now < length input.now) }
{
    let mut rest = input;
    while !rest.is_empty() {
        let start = input.len() - rest.len();
        let (line, after) = first_line(rest);
        if line == mark {
            return Some((&input[..start], after));
        }
        rest = after;
    }
    None
}

/// Returns the first section of an input, and the bytes after it.
pub fn first_section(input: &[u8]) -> Option<(Section<'_>, &[u8])>
    ensures { IfSome result (λ p. length p.1.now < length input.now) }
{
    if input.is_empty() {
        return None;
    }
    let (line, below) = first_line(input);
    if line == b"copy".as_slice() {
        return Some((Section::Copy(below), &[]));
    }
    let (text, after) = split_at_mark(input, b"lines")?;
    let (lines, rest) = split_at_mark(after, b"end")?;
    Some((Section::Lines { text, lines }, rest))
}
