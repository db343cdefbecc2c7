//! `SharedValidator`, which keeps the shared positions that were visited.
ghost use Rattle.std.specs.Prelude.{◌≡◌, ◌↔◌, ℕ, IsTrue, MatchResult, Some};
ghost use Rattle.archive_shape_layout.specs.RuntimeShape.{pointee_of};
ghost use Rattle.archive_shape.specs.Kept.{Kept, StartsShared, RefusesShared};
ghost use Rattle.archive_core_validation.specs.Depth.{none_seen};
ghost use Rattle.archive_core_validation.specs.Visits.{as_entry, seen_in};

use crate::{Visited, Visits};
use archive_shape::ValidationState;
use archive_shape_layout::{Error, Pointee, same_shape};
use std::alloc::Global;
use std::collections::BTreeMap;

/// The pointee and the length with which a shared position was first visited, and whether its check has ended.
#[derive(Drop)]
struct SharedEntry {
    pointee: Pointee,
    len: usize,
    done: bool,
}

/// Keeps the shared positions that were visited. Its memory grows with their number, and each is found in a time that
/// grows with the logarithm of their number, for any positions.
#[derive(Drop)]
pub struct SharedValidator {
    met: BTreeMap<usize, SharedEntry>,
}

fn same_pointee(first: &Pointee, second: &Pointee) -> bool
    ensures { IsTrue result ↔ (pointee_of first.now ≡ pointee_of second.now) }
{
    match (first, second) {
        (Pointee::Sized(a), Pointee::Sized(b)) => same_shape(a, b),
        (Pointee::Slice(a), Pointee::Slice(b)) => same_shape(a, b),
        (Pointee::Text, Pointee::Text) => true,
        _ => false,
    }
}

impl SharedEntry {
    /// Returns the state of a position that is visited again with this pointee and this length.
    fn met_again(&self, len: usize, pointee: &Pointee) -> Result<ValidationState, Error>
        ensures { (k : Kept) (pos : ℕ) → k.seen pos ≡ Some (as_entry self.now)
            → MatchResult result (StartsShared k pos (pointee_of pointee.now) len k) (RefusesShared k pos (pointee_of pointee.now) len) }
    {
        if !same_pointee(&self.pointee, pointee) {
            return Err(Error::TypeMismatch);
        }
        if self.len != len {
            return Err(Error::MetadataMismatch);
        }
        if self.done {
            Ok(ValidationState::Finished)
        } else {
            Ok(ValidationState::Pending)
        }
    }
}

impl SharedValidator {
    /// Creates a validator that has visited no position. It does not allocate.
    #[tactic(auto, unfolding(crate::specs::Visits::seen_in))]
    pub fn new(alloc: Global) -> Self
        ensures { (pos : ℕ) → ⟦<SharedValidator as Visited>⟧.seen result pos ≡ none_seen pos }
    {
        SharedValidator {
            met: BTreeMap::new(alloc),
        }
    }

    /// Creates a validator that has visited no position. Nothing is reserved for any capacity, because a search tree
    /// allocates as it grows.
    pub fn with_capacity(alloc: Global, _capacity: usize) -> Result<Self, Error>
        ensures { MatchResult result
            (λ v. (pos : ℕ) → ⟦<SharedValidator as Visited>⟧.seen v pos ≡ none_seen pos)
            (λ e. e ≡ Error.OutOfMemory) }
    {
        Ok(SharedValidator::new(alloc))
    }
}

impl Visited for SharedValidator {
    ghost seen = { λ v. seen_in v.met };
}

impl Visits for SharedValidator {
    fn start_shared(
        &mut self,
        pos: usize,
        len: usize,
        pointee: Pointee,
    ) -> Result<ValidationState, Error> {
        if let Some(entry) = self.met.get(&pos) {
            return entry.met_again(len, &pointee);
        }
        let entry = SharedEntry {
            pointee,
            len,
            done: false,
        };
        match self.met.insert(pos, entry) {
            Ok(_) => Ok(ValidationState::Started),
            Err(_) => Err(Error::OutOfMemory),
        }
    }

    fn finish_shared(&mut self, pos: usize) -> Result<(), Error> {
        let Some(entry) = self.met.get_mut(&pos) else {
            return Err(Error::NotStarted);
        };
        if entry.done {
            return Err(Error::AlreadyFinished);
        }
        entry.done = true;
        Ok(())
    }
}
