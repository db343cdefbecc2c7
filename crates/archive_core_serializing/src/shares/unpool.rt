//! `Unpool`, which keeps nothing of the shared values that are read.
ghost use Rattle.std.specs.Prelude.{false};
ghost use Rattle.archive_shape_layout.specs.Progress.Progress.{unmet};

use archive_shape::{Error, Pooling, PoolingState};

/// A pool that keeps nothing: each shared value is read again at each pointer that leads to it. If shared values lie in
/// shared values, the time for that can grow with the number of paths that lead to each. A `Pool` reads each value
/// once.
#[derive(Clone, Copy, Drop, Debug, PartialEq, Eq)]
pub struct Unpool;

impl<T: Drop> Pooling<T> for Unpool {
    ghost KEEPS = { false };

    ghost known = { λ _ _. unmet };

    fn start_pooling(&mut self, _pos: usize) -> Result<PoolingState<T>, Error> {
        Ok(PoolingState::Started)
    }

    fn finish_pooling(&mut self, _pos: usize, _value: T) -> Result<(), Error> {
        Ok(())
    }
}
