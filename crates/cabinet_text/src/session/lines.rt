//! Reads the lines of a source one after the other, with the limits of a line and of an input.
ghost use Rattle.std.specs.Prelude.{◌≡◌, ◌≢◌, ◌+◌, ◌-◌, ◌^◌, ◌<◌, ◌≤◌, [], ◌∷◌, ◌++◌, length, vec_len, IsTrue, IfOk, IfErr, OnOk};
ghost use Rattle.cabinet_text.specs.Input.{longest_line, newlines};
ghost use Rattle.cabinet_text.specs.LineReading.{no_line_read, FindsLine, ReaderEndsCall};
ghost use Rattle.cabinet_text.specs.LineSteps.{bytes_between, GoesOn, EndsLine, FailsIn, TakesBytes};

use crate::session::RunCause;
use crate::source::Source;
use cabinet_text_bytes::newline_in;
use std::alloc::Global;
use std::marker::Model;

/// The maximum number of bytes of a line.
const LONGEST_LINE: usize = 1_048_576;

/// The maximum number of bytes of an input.
const LONGEST_INPUT: u64 = 4_294_967_295;

/// The maximum number of bytes that are read at once.
const PIECE: usize = 16384;

/// The beginning of a line, and the number of bytes that belong to lines up to now.
#[derive(Drop)]
struct Begun {
    line: Vec<u8>,
    total: u64,
    ghost short: { vec_len line ≤ 1048576 },
    ghost within: { total ≤ 4294967295 },
}

impl Begun {
    /// Appends bytes without a newline. Returns `LineTooLong` if the line exceeds its limit, and `OutOfMemory` when an
    /// allocation fails.
    fn lengthen(&mut self, bytes: &[u8]) -> Result<(), RunCause>
        requires within { self.old.total + length bytes.now ≤ 4294967295 }
        ensures taken { OnOk result (GoesOn self.old.line.items self.old.total bytes.now self.new.line.items self.new.total) }
        ensures not_read { IfErr result (λ cause. cause ≢ RunCause.Read) }
        ensures not_write { IfErr result (λ cause. cause ≢ RunCause.Write) }
        ensures fault { newlines bytes.now ≡ 0 → IfErr result (FailsIn self.old.line.items self.old.total bytes.now) }
    {
        if bytes.is_empty() {
            return Ok(());
        }
        if bytes.len() > LONGEST_LINE - self.line.len() {
            return Err(RunCause::LineTooLong);
        }
        match self.line.extend_from_slice(bytes) {
            Ok(()) => {
                self.total += bytes.len() as u64;
                Ok(())
            }
            Err(_) => Err(RunCause::OutOfMemory),
        }
    }

    /// Takes the rest of a line, which a newline follows. It is appended only if the line has a beginning here.
    fn end_line(&mut self, rest: &[u8]) -> Result<(), RunCause>
        requires within { self.old.total + length rest.now < 4294967295 }
        ensures taken { OnOk result (EndsLine self.old.line.items self.old.total rest.now self.new.line.items self.new.total) }
        ensures not_read { IfErr result (λ cause. cause ≢ RunCause.Read) }
        ensures not_write { IfErr result (λ cause. cause ≢ RunCause.Write) }
        ensures fault { newlines rest.now ≡ 0 → IfErr result (FailsIn self.old.line.items self.old.total (rest.now ++ 10 ∷ [])) }
    {
        if rest.len() > LONGEST_LINE - self.line.len() {
            return Err(RunCause::LineTooLong);
        }
        if !self.line.is_empty() {
            match self.line.extend_from_slice(rest) {
                Ok(()) => {}
                Err(_) => return Err(RunCause::OutOfMemory),
            }
        }
        self.total += rest.len() as u64 + 1;
        Ok(())
    }

    /// Takes the bytes up to the first newline and returns its index, or takes all bytes if there is none. No byte past the
    /// limit of the input is taken: returns `InputTooLong` there, or `LineTooLong` if the first byte past that limit exceeds
    /// the limit of a line too.
    fn take_line(&mut self, bytes: &[u8]) -> Result<Option<usize>, RunCause>
        ensures taken { TakesBytes self.old.line.items self.old.total bytes.now self.new.line.items self.new.total result }
        ensures not_read { IfErr result (λ cause. cause ≢ RunCause.Read) }
        ensures not_write { IfErr result (λ cause. cause ≢ RunCause.Write) }
        ensures fault { IfErr result (FailsIn self.old.line.items self.old.total bytes.now) }
    {
        let room = LONGEST_INPUT - self.total;
        let allowed = if bytes.len() as u64 <= room {
            bytes.len()
        } else {
            room as usize
        };
        if let Some(end) = newline_in(&bytes[..allowed]) {
            return match self.end_line(&bytes[..end]) {
                Ok(()) => Ok(Some(end)),
                Err(cause) => Err(cause),
            };
        }
        match self.lengthen(&bytes[..allowed]) {
            Ok(()) => {}
            Err(cause) => return Err(cause),
        }
        if allowed == bytes.len() {
            return Ok(None);
        }
        if bytes[allowed] == b'\n' || self.line.len() < LONGEST_LINE {
            return Err(RunCause::InputTooLong);
        }
        Err(RunCause::LineTooLong)
    }
}

/// Returns the bytes from one index up to another.
fn part(bytes: &[u8], start: usize, end: usize) -> &[u8]
    requires order { start ≤ end }
    requires within { end ≤ length bytes.now }
    ensures { result.now ≡ bytes_between start end bytes.now }
{
    &bytes[start..end]
}

/// A reader of lines. It keeps a piece of its source, and the line that was found last. A newline ends each line but the
/// last, which may lack it.
#[derive(Drop)]
pub struct LineReader {
    piece: [u8; PIECE],
    /// The bytes of the piece from `next` to `len` belong to no line yet.
    next: usize,
    len: usize,
    /// The line that was found last lies in the piece from `start` to `end`, if `begun` has no bytes of a line.
    start: usize,
    end: usize,
    /// The line that was found last, if it did not lie whole in one piece.
    begun: Begun,
    ended: bool,
}

impl Model for LineReader {
    ghost use Rattle.std.specs.Prelude.{◌≤◌};
    ghost use Rattle.cabinet_text.specs.LineReading.{LinesRead};

    ghost Value = { LinesRead };

    ghost use Rattle.cabinet_text.specs.LineSteps.{bytes_between, line_in};

    ghost view = { λ r. record {
      total = r.begun.total;
      unread = bytes_between r.next r.len r.piece;
      line = line_in r.begun.line.items (bytes_between r.start r.end r.piece);
      ended = r.ended;
    } };

    ghost invariant = { λ r. (r.next ≤ r.len) × (r.len ≤ 16384) × (r.start ≤ r.end) × (r.end ≤ 16384) };
}

impl LineReader {
    /// Creates a reader of lines that has read nothing.
    pub fn new(alloc: Global) -> LineReader
        ensures { result ≡ no_line_read }
    {
        LineReader {
            piece: [0u8; PIECE],
            next: 0,
            len: 0,
            start: 0,
            end: 0,
            begun: Begun {
                line: Vec::new(alloc),
                total: 0,
            },
            ended: false,
        }
    }

    /// Returns the line that was found last, without its newline.
    pub fn line(&self) -> &[u8]
        ensures { result.now ≡ self.now.line }
    {
        if self.begun.line.is_empty() {
            part(&self.piece, self.start, self.end)
        } else {
            self.begun.line.as_slice()
        }
    }

    /// Finds the next line, and returns whether there is one. It reads only where no newline is left in the piece, and does not
    /// read on after the end of the source. It allocates only for a line that does not lie whole in one piece. After an
    /// error it is not known where the reader is.
    pub fn advance<R: Source>(&mut self, reader: &mut R) -> Result<bool, RunCause>
        requires { R.failures reader.old < 2 ^ 64 - 1 }
        ensures found { FindsLine R.Source self.old self.new reader.old reader.new result }
        // Regardless of whether the reader is observable.
        ensures short { OnOk result (length self.new.line ≤ longest_line) }
        ensures counted { IfOk result (λ more. IsTrue more → self.old.total + 1 ≤ self.new.total) }
        ensures within { self.new.total ≤ 4294967295 }
        ensures not_write { IfErr result (λ cause. cause ≢ RunCause.Write) }
        ensures reader_fails { ReaderEndsCall R.Source reader.old reader.new result }
    {
        if self.ended {
            return Ok(false);
        }
        self.begun.line.clear();
        loop {
            match self.begun.take_line(part(&self.piece, self.next, self.len)) {
                Ok(Some(end)) => {
                    self.start = self.next;
                    self.end = self.next + end;
                    self.next = self.end + 1;
                    return Ok(true);
                }
                Ok(None) => {}
                Err(cause) => return Err(cause),
            }
            let len = match reader.read(&mut self.piece) {
                Ok(len) => len,
                Err(_) => return Err(RunCause::Read),
            };
            self.next = 0;
            self.len = len;
            if len == 0 {
                self.ended = true;
                return Ok(!self.begun.line.is_empty());
            }
        }
    }
}
