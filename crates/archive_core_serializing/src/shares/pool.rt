//! `Pool`, which keeps the result of each shared value that was read.
ghost use Rattle.std.specs.Prelude.{◌≡◌, true, IsOkAnd};
ghost use Rattle.std.specs.Ordering.{nat_cmp};
ghost use Rattle.std.specs.BTreeMap.{get};
ghost use Rattle.archive_core_serializing.specs.Kept.{progress_kept, IsNoneMet};

use crate::shares::ExactClone;
use archive_shape::{Error, Pooling, PoolingState};
use std::alloc::Global;
use std::collections::BTreeMap;
use std::collections::btree_map::Entry;

/// Keeps which positions have begun, and the result of each that has ended.
///
/// Each call takes a time that grows with the logarithm of the number of positions, for any positions.
#[derive(Drop)]
pub struct Pool<T> {
    values: BTreeMap<usize, Option<T>>,
}

/// A deserializer of values whose counted pointers are of the type `T`.
pub type HighDeserializer<T> = Pool<T>;

impl<T: ExactClone> Pool<T> {
    /// Creates a pool with no positions. It does not allocate.
    pub fn new(alloc: Global) -> Self
        ensures { IsNoneMet (⟦<Pool<T> as Pooling<T>>⟧.known result) }
    {
        Pool {
            values: BTreeMap::new(alloc),
        }
    }

    /// Creates a pool with no positions. Nothing is reserved for any capacity: memory is allocated as positions begin.
    pub fn with_capacity(alloc: Global, _capacity: usize) -> Result<Self, Error>
        ensures { IsOkAnd result (λ pool. IsNoneMet (⟦<Pool<T> as Pooling<T>>⟧.known pool)) }
    {
        Ok(Pool::new(alloc))
    }

    /// Removes all positions.
    pub fn clear(&mut self)
        ensures { IsNoneMet (⟦<Pool<T> as Pooling<T>>⟧.known self.new) }
    {
        self.values.clear();
    }
}

impl<T: ExactClone> Pooling<T> for Pool<T> {
    ghost KEEPS = { true };

    ghost known = { λ pool pos. progress_kept (get nat_cmp pool.values pos) };

    fn start_pooling(&mut self, pos: usize) -> Result<PoolingState<T>, Error> {
        match self.values.entry(pos)? {
            Entry::Vacant(entry) => {
                entry.insert(None);
                Ok(PoolingState::Started)
            }
            Entry::Occupied(entry) => match entry.get() {
                None => Ok(PoolingState::Pending),
                Some(value) => Ok(PoolingState::Finished(value.clone()?)),
            },
        }
    }

    fn finish_pooling(&mut self, pos: usize, value: T) -> Result<(), Error> {
        match self.values.get_mut(&pos) {
            None => Err(Error::NotStarted),
            Some(Some(_)) => Err(Error::AlreadyFinished),
            Some(made) => {
                *made = Some(value);
                Ok(())
            }
        }
    }
}
