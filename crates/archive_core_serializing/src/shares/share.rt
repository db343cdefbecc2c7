//! `Share`, which keeps the position of each shared value that was written.
ghost use Rattle.std.specs.Prelude.{◌≡◌, ◌≤◌, IfOk, MatchResult, nat_eq};
ghost use Rattle.std.specs.HashMap.{get, spare};
ghost use Rattle.archive_core_serializing.specs.Kept.{progress_kept, IsNoneMet};
ghost use Rattle.archive_shape_layout.specs.declared.error.Error.TheVariants.{OutOfMemory};

use archive_shape::{Error, Registry, Sharing, SharingState};
use std::alloc::Global;
use std::collections::HashMap;
use std::collections::hash_map::Entry;

/// Keeps which keys have begun, and the position at which each has ended.
///
/// The hash of a key has a fixed seed, so the keys must not be chosen by an untrusted party.
#[derive(Drop)]
pub struct Share {
    ends: HashMap<usize, Option<usize>>,
}

impl Share {
    /// Creates a share with no keys. It does not allocate.
    pub fn new(alloc: Global) -> Self
        ensures { IsNoneMet (⟦<Share as Registry>⟧.known result) }
    {
        Share {
            ends: HashMap::new(alloc),
        }
    }

    /// Creates a share with no keys, and with room for `capacity` keys. Returns `OutOfMemory` if the allocation fails.
    pub fn with_capacity(alloc: Global, capacity: usize) -> Result<Self, Error>
        ensures empty { MatchResult result (λ share. IsNoneMet (⟦<Share as Registry>⟧.known share))
            (λ e. e ≡ OutOfMemory) }
        ensures room { IfOk result (λ share. capacity ≤ spare share.ends) }
    {
        Ok(Share {
            ends: HashMap::with_capacity(alloc, capacity)?,
        })
    }

    /// Removes all keys, and keeps the memory.
    pub fn clear(&mut self)
        ensures { IsNoneMet (⟦<Share as Registry>⟧.known self.new) }
    {
        self.ends.clear();
    }
}

impl Registry for Share {
    ghost known = { λ share key. progress_kept (get nat_eq share.ends key) };
}

impl Sharing for Share {
    fn start_sharing(&mut self, key: usize) -> Result<SharingState, Error> {
        match self.ends.entry(key)? {
            Entry::Vacant(entry) => {
                entry.insert(None);
                Ok(SharingState::Started)
            }
            Entry::Occupied(entry) => match *entry.get() {
                None => Ok(SharingState::Pending),
                Some(pos) => Ok(SharingState::Finished(pos)),
            },
        }
    }

    fn finish_sharing(&mut self, key: usize, pos: usize) -> Result<(), Error> {
        match self.ends.get_mut(&key) {
            None => Err(Error::NotStarted),
            Some(Some(_)) => Err(Error::AlreadyFinished),
            Some(end) => {
                *end = Some(pos);
                Ok(())
            }
        }
    }
}
