//! `Serializer`: a writer, an allocator, and what keeps the shared values that were written.
ghost use Rattle.std.specs.Prelude.{◌≡◌};

use crate::shares::Share;
use archive_shape::{Allocator, Error, Positional, Registry, Sharing, SharingState, Writer};
use std::alloc::Global;

/// A writer, an allocator, and what keeps the shared values that were written.
#[derive(Drop)]
pub struct Serializer<W, A, S> {
    pub writer: W,
    pub allocator: A,
    pub sharing: S,
}

/// A serializer of any value.
pub type HighSerializer<W, A> = Serializer<W, A, Share>;

impl<W, A, S> Serializer<W, A, S> {
    /// Creates a serializer of these parts.
    pub fn new(writer: W, allocator: A, sharing: S) -> Self
        ensures writer { result.writer ≡ writer }
        ensures allocator { result.allocator ≡ allocator }
        ensures sharing { result.sharing ≡ sharing }
    {
        Serializer {
            writer,
            allocator,
            sharing,
        }
    }

    /// Returns the parts of the serializer.
    pub fn into_raw_parts(self) -> (W, A, S)
        ensures writer { result.0 ≡ self.writer }
        ensures allocator { result.1 ≡ self.allocator }
        ensures sharing { result.2 ≡ self.sharing }
    {
        let Serializer {
            writer,
            allocator,
            sharing,
        } = self;
        (writer, allocator, sharing)
    }

    /// Returns the writer of the serializer.
    pub fn into_writer(self) -> W
    where
        A: Drop,
        S: Drop,
        ensures { result ≡ self.writer }
    {
        let Serializer { writer, .. } = self;
        writer
    }
}

impl<W: Positional, A, S> Positional for Serializer<W, A, S> {
    ghost pos = { λ s. W.pos s.writer };

    fn pos(&self) -> usize {
        self.writer.pos()
    }
}

impl<W, A, S: Registry> Registry for Serializer<W, A, S> {
    ghost known = { λ s. S.known s.sharing };
}

impl<W: Writer, A, S: Registry> Writer for Serializer<W, A, S> {
    ghost OBSERVABLE = { W.OBSERVABLE };

    ghost COUNTS = { W.COUNTS };

    ghost contents = { λ s. W.contents s.writer };

    ghost failures = { λ s. W.failures s.writer };

    ghost last_error = { λ s. W.last_error s.writer };

    fn counts() -> bool {
        W::counts()
    }

    fn write(&mut self, bytes: &[u8]) -> Result<(), Error> {
        self.writer.write(bytes)
    }
}

impl<W, A: Allocator, S> Allocator for Serializer<W, A, S> {
    ghost memory = { λ s. A.memory s.allocator };

    fn memory(&self) -> Global {
        self.allocator.memory()
    }
}

impl<W, A, S: Sharing> Sharing for Serializer<W, A, S> {
    fn start_sharing(&mut self, key: usize) -> Result<SharingState, Error> {
        self.sharing.start_sharing(key)
    }

    fn finish_sharing(&mut self, key: usize, pos: usize) -> Result<(), Error> {
        self.sharing.finish_sharing(key, pos)
    }
}
