//! The trait of registries that keep the shared values while an archive is written.
ghost use Rattle.archive_shape_layout.specs.Progress.{Finishes};
ghost use Rattle.archive_shape.specs.Calls.{StartsKey};

use crate::{Error, Registry};

/// The progress of a shared value.
#[derive(Clone, Copy, Debug, PartialEq, Eq)]
pub enum SharingState {
    /// It was not seen before, and is begun now.
    Started,
    /// It has begun and has not finished: the value lies inside itself.
    Pending,
    /// It has finished, at this position.
    Finished(usize),
}

/// A registry by which each shared value is written once. The user chooses the keys, one for each shared value. After an
/// error, the progress of all keys is what it was before the call.
pub trait Sharing: Registry {
    /// Returns the progress of the value, and begins a value that was not seen before. Returns `OutOfMemory` when an
    /// allocation fails.
    fn start_sharing(&mut self, key: usize) -> Result<SharingState, Error>
        ensures { StartsKey (Self.known self.old) (Self.known self.new) key result };

    /// Finishes a value that has begun, at the position `pos`. Allocates nothing: the entry was made at its start.
    /// Returns `NotStarted` for a value that has not begun, and `AlreadyFinished` for one that has finished.
    fn finish_sharing(&mut self, key: usize, pos: usize) -> Result<(), Error>
        ensures { Finishes (Self.known self.old) (Self.known self.new) key pos result (Self.known self.old key) };
}

impl<S: Sharing> Sharing for &mut S {
    fn start_sharing(&mut self, key: usize) -> Result<SharingState, Error> {
        (**self).start_sharing(key)
    }

    fn finish_sharing(&mut self, key: usize, pos: usize) -> Result<(), Error> {
        (**self).finish_sharing(key, pos)
    }
}
