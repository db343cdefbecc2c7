//! `Validator`, a validator of archives that consists of a validator of ranges and one of shared positions.
ghost use Rattle.std.specs.Prelude.{◌≡◌, ◌≢◌, MatchResult};
ghost use Rattle.archive_shape_layout.specs.RuntimeShape.{pointee_of};
ghost use Rattle.archive_shape.specs.Kept.{Kept, Seen, StartsShared, RefusesShared, FinishesShared};
ghost use Rattle.archive_core_validation.specs.Depth.{none_seen, with_seen};

use crate::{ArchiveValidator, SharedValidator};
use archive_shape::{ArchiveContext, PushedRange, SharedContext, ValidationState};
use archive_shape_layout::{Error, Pointee};

/// A type that keeps the shared positions that were visited.
pub trait Visited {
    ghost seen: { Self → Seen };
}

impl Visited for () {
    ghost seen = { λ _. none_seen };
}

/// A type that also starts and ends the checks of shared positions, as a `SharedContext` does, regardless of what else
/// that context keeps. After an error the shared positions are those from before the call.
pub trait Visits: Visited {
    /// Returns what is known of a shared position with `len` elements, and starts its check at its first visit.
    fn start_shared(
        &mut self,
        pos: usize,
        len: usize,
        pointee: Pointee,
    ) -> Result<ValidationState, Error>
        ensures { (k : Kept) → MatchResult result
            (StartsShared (with_seen k (Self.seen self.old)) pos (pointee_of pointee) len (with_seen k (Self.seen self.new)))
            (λ e. (e ≢ Error.OutOfMemory → RefusesShared (with_seen k (Self.seen self.old)) pos (pointee_of pointee) len e)
            × (with_seen k (Self.seen self.new) ≡ with_seen k (Self.seen self.old))) };

    /// Ends the check of a shared position. It does not allocate.
    fn finish_shared(&mut self, pos: usize) -> Result<(), Error>
        ensures { (k : Kept) → FinishesShared (with_seen k (Self.seen self.old)) pos
            (with_seen k (Self.seen self.new)) result (Self.seen self.old pos) };
}

/// A context of checks, with the range of `archive` and the shared positions of `shared`.
#[derive(Drop)]
pub struct Validator<A, S> {
    pub archive: A,
    pub shared: S,
}

/// The validator of any archive.
pub type HighValidator = Validator<ArchiveValidator, SharedValidator>;

impl<A, S> Validator<A, S> {
    /// Creates a validator of its two parts.
    pub fn new(archive: A, shared: S) -> Self
        ensures archive { result.archive ≡ archive }
        ensures shared { result.shared ≡ shared }
    {
        Validator { archive, shared }
    }
}

impl<A: ArchiveContext, S: Visited> ArchiveContext for Validator<A, S> {
    ghost kept = { λ c. with_seen (A.kept c.archive) (S.seen c.shared) };

    fn check_subtree_ptr(&self, pos: usize, size: usize, align: usize) -> Result<(), Error> {
        self.archive.check_subtree_ptr(pos, size, align)
    }

    fn push_subtree_range(&mut self, pos: usize, end: usize) -> Result<PushedRange, Error> {
        self.archive.push_subtree_range(pos, end)
    }

    fn pop_subtree_range(&mut self, range: PushedRange) -> Result<(), Error> {
        self.archive.pop_subtree_range(range)
    }

    fn claim_bytes(&mut self, pos: usize, size: usize) -> Result<(), Error> {
        self.archive.claim_bytes(pos, size)
    }
}

impl<A: ArchiveContext, S: Visits> SharedContext for Validator<A, S> {
    fn start_shared(
        &mut self,
        pos: usize,
        len: usize,
        pointee: Pointee,
    ) -> Result<ValidationState, Error> {
        self.shared.start_shared(pos, len, pointee)
    }

    fn finish_shared(&mut self, pos: usize) -> Result<(), Error> {
        self.shared.finish_shared(pos)
    }
}
