//! The contexts that checks are made in.
ghost use Rattle.std.specs.Prelude.{◌≡◌, ◌≢◌, ℕ, ◌+◌, ◌%◌, ◌<◌, ◌≤◌, [], Ok, Err, IfErr};
ghost use Rattle.archive_shape_layout.specs.RuntimeShape.{pointee_of};
ghost use Rattle.archive_shape.specs.Range.{InRange};
ghost use Rattle.archive_shape.specs.Questions.{out_of_range};
ghost use Rattle.archive_shape.specs.Calls.{ClaimsBytes, PopsLast, Pushes, RefusesOther, StartsVisit};
ghost use Rattle.archive_shape.specs.Kept.{Kept, range_of, FinishesShared};

use archive_shape_layout::{Error, Pointee};

/// An open push: the region `[pos, end)` before which the range ends, and `outer`, where the range ended before the
/// push.
#[derive(Clone, Copy, Debug, PartialEq, Eq)]
pub struct PushedRange {
    pub pos: usize,
    pub end: usize,
    pub outer: usize,
}

/// The progress of the check of a shared position.
#[derive(Clone, Copy, Debug, PartialEq, Eq)]
pub enum ValidationState {
    /// It was not seen before, and its check begins.
    Started,
    /// Its check has begun and has not ended: the pointer lies inside what it leads to.
    Pending,
    /// Its check has ended.
    Finished,
}

/// A context of checks, which keeps the range of bytes that may still be claimed. After an error of one of its calls it
/// keeps what it kept before the call.
pub trait ArchiveContext {
    ghost kept: { Self → Kept };

    /// Checks that `[pos, pos + size)` may be claimed: that it lies in the range, and that `pos` is a multiple of
    /// `align`.
    fn check_subtree_ptr(&self, pos: usize, size: usize, align: usize) -> Result<(), Error>
        requires { 0 < align }
        ensures claimable { result ≡ Ok tt → InRange (range_of (kept self.now)) pos size × (pos % align ≡ 0) }
        ensures outside { (InRange (range_of (kept self.now)) pos size → ⊥) → result ≡ Err (out_of_range size) }
        ensures unaligned { InRange (range_of (kept self.now)) pos size → pos % align ≢ 0 → result ≡ Err (Error.Unaligned align) }
        ensures accepted { InRange (range_of (kept self.now)) pos size → pos % align ≡ 0 → result ≡ Ok tt };

    /// Narrows the range to the part before `[pos, end)`. Returns `ExceededMaximumSubtreeDepth` where no more pushes
    /// may nest.
    fn push_subtree_range(&mut self, pos: usize, end: usize) -> Result<PushedRange, Error>
        ensures { Pushes (kept self.old) pos end result (kept self.new) };

    /// Ends the last open push, which must be `range`, and starts the range again after its region. Returns
    /// `RangePoppedTooManyTimes` where no push is open, and `RangePoppedOutOfOrder` where another push is the last.
    fn pop_subtree_range(&mut self, range: PushedRange) -> Result<(), Error>
        ensures none { (kept self.old).pushes ≡ [] → result ≡ Err Error.RangePoppedTooManyTimes }
        ensures other { RefusesOther (kept self.old) range result }
        ensures last { PopsLast (kept self.old) range result (kept self.new) }
        ensures refused { IfErr result (λ _. kept self.new ≡ kept self.old) };

    /// Claims the bytes `[pos, pos + size)`, inside which nothing else is claimed: the range is that after a push of them
    /// and its pop. It does not allocate.
    fn claim_bytes(&mut self, pos: usize, size: usize) -> Result<(), Error>
        ensures { ClaimsBytes (kept self.old) pos size result (kept self.new) };
}

/// A context that also keeps the shared positions that were seen.
pub trait SharedContext: ArchiveContext {
    /// Returns the progress of the check of a shared position with `len` elements, and starts the check at the first
    /// visit. Returns `TypeMismatch` or `MetadataMismatch` where the position was seen before with another pointee or
    /// length.
    fn start_shared(
        &mut self,
        pos: usize,
        len: usize,
        pointee: Pointee,
    ) -> Result<ValidationState, Error>
        ensures { StartsVisit (Self.kept self.old) pos (pointee_of pointee) len result (Self.kept self.new) };

    /// Ends the check of a shared position. Allocates nothing. Returns `NotStarted` where the check has not begun, and
    /// `AlreadyFinished` where it has ended.
    fn finish_shared(&mut self, pos: usize) -> Result<(), Error>
        ensures { FinishesShared (Self.kept self.old) pos (Self.kept self.new) result ((Self.kept self.old).seen pos) };
}
