//! The trait of registries that keep the shared values while an archive is read.
ghost use Rattle.std.specs.Prelude.{ℕ, Bool};
ghost use Rattle.archive_shape.specs.Pooling.{FinishesPooling};
ghost use Rattle.archive_shape.specs.Calls.{StartsReading};
ghost use Rattle.archive_shape_layout.specs.Progress.{Progress};

use crate::Error;

/// The progress of the value at a shared position.
#[derive(Clone, Copy, Drop, Debug, PartialEq, Eq)]
pub enum PoolingState<T> {
    /// It was not seen before, and is begun now.
    Started,
    /// It has begun and has not finished: the value lies inside itself.
    Pending,
    /// It has finished, and this value was made of it.
    Finished(T),
}

/// A registry of the shared values that are read. Where it keeps their progress, each is read once. After an error, what
/// is known of all positions is what it was before the call.
pub trait Pooling<T> {
    /// Whether the progress of positions is kept.
    ghost KEEPS: { Bool };

    /// What is known of each position.
    ghost known: { Self → ℕ → Progress T };

    /// Returns the progress of the value at a position, and begins a value that was not seen before. Where no progress
    /// is kept, the value is begun anew. Returns `OutOfMemory` when an allocation fails.
    fn start_pooling(&mut self, pos: usize) -> Result<PoolingState<T>, Error>
        ensures { StartsReading (known self.old) (known self.new) pos KEEPS result };

    /// Finishes a value that has begun, of which `value` was made. Allocates nothing: the entry was made at its start.
    /// Where progress is kept, returns `NotStarted` for a value that has not begun, and `AlreadyFinished` for one that
    /// has finished.
    fn finish_pooling(&mut self, pos: usize, value: T) -> Result<(), Error>
        ensures { FinishesPooling (known self.old) (known self.new) pos KEEPS value result };
}

impl<T, P: Pooling<T>> Pooling<T> for &mut P {
    ghost KEEPS = { P.KEEPS };

    ghost known = { λ r. P.known r.now };

    fn start_pooling(&mut self, pos: usize) -> Result<PoolingState<T>, Error> {
        (**self).start_pooling(pos)
    }

    fn finish_pooling(&mut self, pos: usize, value: T) -> Result<(), Error> {
        (**self).finish_pooling(pos, value)
    }
}
