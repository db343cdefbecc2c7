//! The standard input as a source of lines, whose bytes are not known, so that contracts cannot name them.
ghost use Rattle.std.specs.Prelude.{◌≡◌, ◌≤◌, false, [], length, IfOk};

use cabinet::{Source, SourceFailed};
use std::io;
use std::io::{ErrorKind, Read};

/// A stream that bytes are read from, with the number of reads that failed.
#[derive(Drop)]
pub struct InputStream<R: Read + Drop> {
    stream: R,
    pub failures: u64,
}

/// Reads once, and again as often as a signal interrupts the read.
fn read_some<R: Read>(stream: &mut R, buffer: &mut [u8]) -> io::Result<usize>
    ensures { IfOk result (λ n. n ≤ length buffer.new) }
{
    for _ in 0..u64::MAX {
        match stream.read(buffer) {
            Err(refusal) if refusal.kind() == ErrorKind::Interrupted => {}
            read => return read,
        }
    }
    Err(io::Error::from(ErrorKind::Interrupted))
}

impl<R: Read + Drop> InputStream<R> {
    /// Returns a source that reads from a stream.
    pub fn new(stream: R) -> InputStream<R>
        ensures { result.failures ≡ 0 }
    {
        InputStream {
            stream,
            failures: 0,
        }
    }
}

impl<R: Read + Drop> Source for InputStream<R> {
    ghost OBSERVABLE = { false };

    ghost left = { λ _. [] };

    ghost failures = { λ s. s.failures };

    fn read(&mut self, buffer: &mut [u8]) -> Result<usize, SourceFailed> {
        match read_some(&mut self.stream, buffer) {
            Ok(len) => Ok(len),
            Err(_) => {
                self.failures += 1;
                Err(SourceFailed)
            }
        }
    }
}
