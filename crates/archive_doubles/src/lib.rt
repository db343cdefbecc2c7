//! A writer for tests, which fails.
#![tactic(auto)]

ghost use Rattle.std.specs.Prelude.{◌≡◌, true, vec_len};
ghost use Rattle.archive_shape_layout.specs.Progress.Progress.{unmet};

use archive_shape_layout::{Error, Positional, Registry, Writer};
use std::alloc::Global;

/// A writer that fails after a number of writes. Of each later piece it writes the first bytes, up to a number of them.
#[derive(Drop)]
pub struct FailingWriter {
    bytes: Vec<u8>,
    writes_left: usize,
    prefix: usize,
    pub failures: u64,
    last_error: Error,
}

impl FailingWriter {
    /// Returns a writer that fails after `writes` writes, and then writes at most `prefix` bytes of a piece.
    pub fn new(alloc: Global, writes: usize, prefix: usize) -> Self
        ensures { result.failures ≡ 0 }
    {
        FailingWriter {
            bytes: Vec::new(alloc),
            writes_left: writes,
            prefix,
            failures: 0,
            last_error: Error::WriterFailed,
        }
    }

    /// Returns the bytes that were written.
    pub fn bytes(&self) -> &[u8] {
        self.bytes.as_slice()
    }

    /// Returns the number of writes after which the writer fails.
    pub fn writes_left(&self) -> usize {
        self.writes_left
    }
}

impl Positional for FailingWriter {
    ghost pos = { λ w. vec_len w.bytes };

    fn pos(&self) -> usize {
        self.bytes.len()
    }
}

impl Registry for FailingWriter {
    ghost known = { λ _ _. unmet };
}

#[tactic(auto, using(archive_shape_layout::proofs::Joined::cut_none, archive_shape_layout::proofs::Joined::cut_take))]
impl Writer for FailingWriter {
    ghost OBSERVABLE = { true };

    ghost COUNTS = { true };

    ghost contents = { λ w. w.bytes.items };

    ghost failures = { λ w. w.failures };

    ghost last_error = { λ w. w.last_error };

    fn counts() -> bool {
        true
    }

    fn write(&mut self, bytes: &[u8]) -> Result<(), Error> {
        if self.writes_left == 0 {
            self.failures += 1;
            let written = self.prefix.min(bytes.len());
            self.last_error = Error::OutOfMemory;
            self.bytes.extend_from_slice(&bytes[..written])?;
            self.last_error = Error::WriterFailed;
            return Err(Error::WriterFailed);
        }
        if self.bytes.extend_from_slice(bytes).is_err() {
            self.failures += 1;
            self.last_error = Error::OutOfMemory;
            return Err(Error::OutOfMemory);
        }
        self.writes_left -= 1;
        Ok(())
    }
}
