//! Splits a text into lines, and finds the faults of its first line that do not depend on what is expected there.
ghost use Rattle.std.specs.Prelude.{◌≡◌, ℕ, ◌<◌, ◌++◌, ◌∷◌, List, length, IfSome, IfOk, IfErr, IsUtf8, codes};
ghost use Rattle.cabinet_text_grammar.specs.Fault.{rank};
ghost use Rattle.cabinet_text_bytes.specs.Words.{IsEscaped};
ghost use Rattle.cabinet_text_reading.specs.Calls.Lines.{SplitsLine, LacksLine, LacksDueLine, FindsAfter, IsNoKey};
ghost use Rattle.cabinet_text_reading.specs.Causes.{a_line, next_piece};
ghost use Rattle.cabinet_text_reading.specs.Lines.{IsLongest};

use cabinet_text_bytes::{after_prefix, newline_in, unescaped_len};
use cabinet_text_grammar::Cause;
use std::marker::Model;

/// Returns the parts of a text before and after its first newline.
fn split_line(text: &str) -> Option<(&str, &str)>
    ensures { SplitsLine text.now result }
{
    let end = newline_in(text.as_bytes())?;
    Some((&text[..end], &text[end + 1..]))
}

/// The rest of a text after some lines were taken: its longest prefix that is UTF-8, and the bytes after that.
#[derive(Drop)]
pub(crate) struct Lines<'a> {
    rest: &'a str,
    more: &'a [u8],
}

impl<'a> Model for Lines<'a> {
    ghost Value = { List ℕ };

    ghost view = { λ l. l.rest.now ++ l.more.now };

    ghost invariant = { λ l. IsUtf8 l.rest.now × IsLongest l.rest.now l.more.now };
}

impl<'a> Lines<'a> {
    /// Creates the lines of a whole text.
    pub(crate) fn new(text: &'a [u8]) -> Self
        ensures { result ≡ text.now }
    {
        match std::str::from_utf8(text) {
            Ok(rest) => Lines { rest, more: &[] },
            Err(error) => {
                let (rest, more) = text.split_at(error.valid_up_to());
                let rest = unsafe { std::str::from_utf8_unchecked(rest) };
                Lines { rest, more }
            }
        }
    }

    /// Returns the number of bytes.
    pub(crate) fn len(&self) -> usize
        ensures { result ≡ length self.now }
    {
        self.rest.len() + self.more.len()
    }

    /// Returns the first line and the rest after it. If no line ends, returns the fault of the bytes that are left, or
    /// `None` if there are none.
    #[inline(always)]
    fn cut_line(self) -> Result<(&'a str, Lines<'a>), Option<Cause>>
        ensures piece { IfOk result (λ next. next_piece self.entry ≡ a_line next.0.now) }
        ensures utf8 { IfOk result (λ next. IsUtf8 next.0.now) }
        ensures parts { IfOk result (λ next. self.entry ≡ next.0.now ++ 10 ∷ next.1) }
        ensures end { IfErr result (LacksLine self.entry) }
        ensures early { IfErr result (λ fault. IfSome fault (λ cause. rank cause < 3)) }
    {
        let Lines { rest, more } = self;
        if let Some((line, after)) = split_line(rest) {
            return Ok((line, Lines { rest: after, more }));
        }
        if !more.is_empty() {
            return Err(Some(Cause::NotUtf8));
        }
        if !rest.is_empty() {
            return Err(Some(Cause::NoNewline));
        }
        Err(None)
    }

    /// Returns the first line where a line is expected, and the rest after it.
    pub(crate) fn next_line(self) -> Result<(&'a str, Lines<'a>), Cause>
        ensures piece { IfOk result (λ next. next_piece self.entry ≡ a_line next.0.now) }
        ensures parts { IfOk result (λ next. self.entry ≡ next.0.now ++ 10 ∷ next.1) }
        ensures fault { IfErr result (LacksDueLine self.entry) }
        ensures early { IfErr result (λ cause. rank cause < 3) }
    {
        match self.cut_line() {
            Ok(next) => Ok(next),
            Err(Some(cause)) => Err(cause),
            Err(None) => Err(Cause::EndTooEarly),
        }
    }

    /// Returns the fault of what is left after a document, if anything is left.
    pub(crate) fn fault_after(self) -> Option<Cause>
        ensures { FindsAfter self.entry result }
    {
        match self.cut_line() {
            Ok(_) => Some(Cause::LineAfterEnd),
            Err(fault) => fault,
        }
    }
}

/// Reads a line as a key, and returns the key's escaped form.
pub(crate) fn read_key_argument(line: &str) -> Result<&[u8], Cause>
    ensures argument { IfOk result (λ argument. IsEscaped argument.now) }
    ensures line { IfOk result (λ argument. line.now ≡ codes "'" ++ argument.now) }
    ensures fault { IfErr result (IsNoKey line.now) }
{
    let bytes = line.as_bytes();
    let Some(argument) = after_prefix(bytes, b"'".as_slice()) else {
        return Err(Cause::KeyExpected);
    };
    if unescaped_len(argument).is_none() {
        return Err(Cause::BadEscape);
    }
    Ok(argument)
}
