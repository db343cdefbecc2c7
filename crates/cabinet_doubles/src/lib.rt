//! What tests of documents share: a source and a writer that fail, archives byte by byte, and texts of wholes.
#![tactic(auto)]

ghost use Rattle.std.specs.Prelude.{◌≡◌, true};

pub mod archives;
mod row;
mod texts;

pub use archive_doubles::FailingWriter;
use cabinet::{Source, SourceFailed};
pub use row::{Edit, ROWS, Row, count_lines, line_at};
pub use texts::text_of_wholes;

/// A source that gives at most `most` bytes at a time, and fails after `reads_left` reads.
#[derive(Drop)]
pub struct SliceSource<'a> {
    bytes: &'a [u8],
    reads_left: usize,
    most: usize,
    pub failures: u64,
}

impl<'a> SliceSource<'a> {
    /// Returns a source of `bytes` that fails after `reads` reads, and gives at most `most` bytes at a time.
    pub fn new(bytes: &'a [u8], reads: usize, most: usize) -> Self
        ensures { result.failures ≡ 0 }
    {
        SliceSource {
            bytes,
            reads_left: reads,
            most: most.max(1),
            failures: 0,
        }
    }

    /// Returns the number of reads after which the source fails.
    pub fn reads_left(&self) -> usize {
        self.reads_left
    }
}

impl Source for SliceSource<'_> {
    ghost OBSERVABLE = { true };

    ghost left = { λ s. s.bytes.now };

    ghost failures = { λ s. s.failures };

    fn read(&mut self, buffer: &mut [u8]) -> Result<usize, SourceFailed> {
        if self.reads_left == 0 {
            self.failures += 1;
            return Err(SourceFailed);
        }
        self.reads_left -= 1;
        let len = self.most.max(1).min(buffer.len()).min(self.bytes.len());
        let (now, later) = self.bytes.split_at(len);
        buffer[..len].copy_from_slice(now);
        self.bytes = later;
        Ok(len)
    }
}
