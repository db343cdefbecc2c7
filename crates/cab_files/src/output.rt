//! The standard output and error as writers of lines, whose bytes are not known, so that contracts cannot name them.
ghost use Rattle.std.specs.Prelude.{◌≡◌, ◌+◌, ◌-◌, ◌^◌, ◌<◌, false, true, [], OnOk, OnErr};
ghost use Rattle.archive_shape_layout.specs.Progress.Progress.{unmet};

use archive_shape_layout::{Error, Positional, Registry, Writer};
use std::io;
use std::io::Write;

/// A stream that bytes are written to, with the number of bytes that were written and of writes that failed.
#[derive(Drop)]
pub struct OutputStream<W: Write + Drop> {
    stream: W,
    /// Whether each line is written as soon as it ends.
    is_prompt: bool,
    pub position: usize,
    pub failures: u64,
    last_error: Error,
}

/// Writes bytes. If `is_prompt`, also flushes the stream when the bytes end a line.
fn write_some<W: Write>(stream: &mut W, bytes: &[u8], is_prompt: bool) -> io::Result<()> {
    stream.write_all(bytes)?;
    if is_prompt && bytes.ends_with(b"\n") {
        stream.flush()?;
    }
    Ok(())
}

impl<W: Write + Drop> OutputStream<W> {
    /// Returns a writer to a stream, at position 0. If `is_prompt`, each line is written as soon as it ends.
    pub fn new(stream: W, is_prompt: bool) -> OutputStream<W>
        ensures position { result.position ≡ 0 }
        ensures failures { result.failures ≡ 0 }
    {
        OutputStream {
            stream,
            is_prompt,
            position: 0,
            failures: 0,
            last_error: Error::WriterFailed,
        }
    }

    /// Counts a write that failed, and keeps its error.
    fn failed(&mut self, error: Error) -> Error
        requires { self.old.failures < 2 ^ 64 - 1 }
        ensures failures { self.new.failures ≡ self.old.failures + 1 }
        ensures last_error { self.new.last_error ≡ error }
        ensures same { result ≡ error }
    {
        self.failures += 1;
        self.last_error = error;
        error
    }

    /// Writes the bytes that a buffer of the stream still holds.
    pub fn flush(&mut self) -> Result<(), Error>
        requires { self.old.failures < 2 ^ 64 - 1 }
        ensures quiet { OnOk result (self.new.failures ≡ self.old.failures) }
        ensures counted { OnErr result (self.new.failures ≡ self.old.failures + 1) }
    {
        match self.stream.flush() {
            Ok(()) => Ok(()),
            Err(_) => Err(self.failed(Error::WriterFailed)),
        }
    }
}

impl<W: Write + Drop> Positional for OutputStream<W> {
    ghost pos = { λ w. w.position };

    fn pos(&self) -> usize {
        self.position
    }
}

impl<W: Write + Drop> Registry for OutputStream<W> {
    ghost known = { λ _ _. unmet };
}

impl<W: Write + Drop> Writer for OutputStream<W> {
    ghost OBSERVABLE = { false };

    ghost COUNTS = { true };

    ghost contents = { λ _. [] };

    ghost failures = { λ w. w.failures };

    ghost last_error = { λ w. w.last_error };

    fn counts() -> bool {
        true
    }

    fn write(&mut self, bytes: &[u8]) -> Result<(), Error> {
        let Some(position) = self.position.checked_add(bytes.len()) else {
            return Err(self.failed(Error::PositionTooLarge));
        };
        if write_some(&mut self.stream, bytes, self.is_prompt).is_err() {
            return Err(self.failed(Error::WriterFailed));
        }
        self.position = position;
        Ok(())
    }
}
