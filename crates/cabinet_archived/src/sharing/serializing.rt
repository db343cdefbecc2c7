//! How a serializer writes each shared text and each whole once.
ghost use Rattle.std.specs.Prelude.{◌≡◌, ◌-◌, ◌^◌, ◌<◌, MatchResult};
ghost use Rattle.archive_shape.specs.Sharing.{progress_of};
ghost use Rattle.archive_shape_layout.specs.Progress.{IsSame, Starts, Finishes};
ghost use Rattle.archive_shape_layout.specs.declared.error.Error.TheVariants.{OutOfMemory};
ghost use Rattle.archive_forms_laws.specs.Shared.{shared_text_spelling};
ghost use Rattle.archive_forms_laws.specs.Serializing.{HasState, Serializes};
ghost use Rattle.cabinet_documents.specs.SharedKeys.{key_of_text, key_of_number};

use crate::sharing::NodeShare;
use archive_core_serializing::{Serializer, pad_empty};
use archive_forms_writing::serialize_str;
use archive_shape::{Allocator, Error, Positional, Sharing, SharingState, Writer};

/// A writer that writes each shared text and each whole once. It is not used again after an error.
pub trait NodeSharing: Writer + Allocator {
    /// Returns the position of a shared text. Writes its bytes if it was not seen before, and one zero byte after an
    /// empty text, so that no two texts have one position.
    fn serialize_text(&mut self, text: &str) -> Result<usize, Error>
        requires room { Self.failures self.old < 2 ^ 64 - 1 }
        requires state { HasState Self.pos Self.known self.old }
        ensures { Serializes (shared_text_spelling key_of_text) Self.Writer text.now self.old
            self.new result };

    /// Returns the progress of the whole with a number, and begins a whole that was not seen before. Writes nothing.
    /// Returns `OutOfMemory` when an allocation fails.
    fn start_whole(&mut self, number: u64) -> Result<SharingState, Error>
        ensures contents { Self.contents self.new ≡ Self.contents self.old }
        ensures pos { Self.pos self.new ≡ Self.pos self.old }
        ensures failures { Self.failures self.new ≡ Self.failures self.old }
        ensures starts { MatchResult result
            (λ state. Starts (Self.known self.old) (Self.known self.new) (key_of_number number) (progress_of state))
            (λ e. (e ≡ OutOfMemory) × IsSame (Self.known self.old) (Self.known self.new)) };

    /// Finishes a whole that has begun, at the position `pos`. Writes and allocates nothing. Returns `NotStarted` for a
    /// whole that has not begun, and `AlreadyFinished` for one that has finished.
    fn finish_whole(&mut self, number: u64, pos: usize) -> Result<(), Error>
        ensures contents { Self.contents self.new ≡ Self.contents self.old }
        ensures pos { Self.pos self.new ≡ Self.pos self.old }
        ensures failures { Self.failures self.new ≡ Self.failures self.old }
        ensures finishes { Finishes (Self.known self.old) (Self.known self.new) (key_of_number number) pos result
            (Self.known self.old (key_of_number number)) };
}

impl<W: Writer, A: Allocator> NodeSharing for Serializer<W, A, NodeShare> {
    fn serialize_text(&mut self, text: &str) -> Result<usize, Error> {
        if let Some(pos) = self.sharing.texts.position(text) {
            return Ok(pos);
        }
        let alloc = self.allocator.memory();
        let next = self.writer.pos();
        self.sharing.texts.keep(alloc, text, next)?;
        let pos = serialize_str(text, self)?;
        pad_empty(&mut self.writer, pos)?;
        Ok(pos)
    }

    fn start_whole(&mut self, number: u64) -> Result<SharingState, Error> {
        self.sharing.wholes.start_sharing(number as usize)
    }

    fn finish_whole(&mut self, number: u64, pos: usize) -> Result<(), Error> {
        self.sharing.wholes.finish_sharing(number as usize, pos)
    }
}
