//! `PoolingExt`, with which shared values are read once.
ghost use Rattle.archive_core_serializing.specs.Shared.{TakesBegun, ReadsShared};

use crate::shares::ExactClone;
use archive_shape::{Error, Pooling, PoolingState};

/// Methods of every pool of values whose clones are the same.
pub trait PoolingExt<T>: Pooling<T> {
    /// Returns the shared value at `pos`. If the pool keeps none for this position, the step makes the value, and the
    /// pool keeps a clone of it. Otherwise a clone of the kept value is returned. A pool that keeps nothing calls the
    /// step each time.
    ///
    /// Returns `CyclicSharedPointer` for a value that lies inside itself, then the error of the step, then
    /// `AlreadyFinished` if the step has finished the position and `NotStarted` if it has removed it.
    fn deserialize_shared<F: FnOnce(&mut Self, usize) -> Result<T, Error>>(
        &mut self,
        pos: usize,
        step: F,
    ) -> Result<T, Error>
        requires { TakesBegun F.FnOnce Self.known Self.KEEPS step self.old pos }
        ensures { ReadsShared F.FnOnce Self.known Self.KEEPS step self.old pos result self.new };
}

impl<T: ExactClone + Drop, P: Pooling<T>> PoolingExt<T> for P {
    fn deserialize_shared<F: FnOnce(&mut Self, usize) -> Result<T, Error>>(
        &mut self,
        pos: usize,
        step: F,
    ) -> Result<T, Error> {
        match self.start_pooling(pos)? {
            PoolingState::Started => {}
            PoolingState::Pending => return Err(Error::CyclicSharedPointer),
            PoolingState::Finished(value) => return Ok(value),
        }
        let value = step(self, pos)?;
        let copy = match value.clone() {
            Ok(copy) => copy,
            Err(_) => return Err(Error::OutOfMemory),
        };
        self.finish_pooling(pos, copy)?;
        Ok(value)
    }
}
