//! `ArchiveValidator`, which keeps the range of bytes that may still be claimed.
ghost use Rattle.std.specs.Prelude.{◌≡◌, length};
ghost use Rattle.archive_core_validation.specs.Depth.{unlimited, most_of, most_within, none_seen, whole};

use archive_shape::{ArchiveContext, PushedRange};
use archive_shape_layout::Error;
use std::alloc::Global;

/// A context of checks that keeps a range and its open pushes, and no shared positions. Its memory grows with the depth
/// of the regions that are checked.
#[derive(Drop)]
pub struct ArchiveValidator {
    start: usize,
    end: usize,
    /// The greatest number of pushes that may nest, or `None` for no limit.
    most: Option<usize>,
    pushes: Vec<PushedRange>,
}

impl ArchiveValidator {
    /// Creates a validator of all bytes, with no limit of depth. It does not allocate.
    pub fn new(alloc: Global, bytes: &[u8]) -> Self
        ensures { ⟦<ArchiveValidator as ArchiveContext>⟧.kept result
            ≡ whole (length bytes.now) unlimited }
    {
        ArchiveValidator {
            start: 0,
            end: bytes.len(),
            most: None,
            pushes: Vec::new(alloc),
        }
    }

    /// Creates a validator of all bytes, in which at most `max_depth - 1` pushes may nest. With 0 and 1 none may nest,
    /// and `usize::MAX` is no limit. It does not allocate.
    #[tactic(auto, unfolding(crate::specs::Depth::most_of))]
    pub fn with_max_depth(alloc: Global, bytes: &[u8], max_depth: usize) -> Self
        ensures { ⟦<ArchiveValidator as ArchiveContext>⟧.kept result
            ≡ whole (length bytes.now) (most_of max_depth) }
    {
        if max_depth == usize::MAX {
            return ArchiveValidator::new(alloc, bytes);
        }
        ArchiveValidator {
            start: 0,
            end: bytes.len(),
            most: Some(max_depth.saturating_sub(1)),
            pushes: Vec::new(alloc),
        }
    }
}

impl ArchiveContext for ArchiveValidator {
    ghost kept = { λ c. record {
      start = c.start;
      end = c.end;
      most = most_within c.most;
      pushes = c.pushes.items;
      seen = none_seen;
    } };

    fn check_subtree_ptr(&self, pos: usize, size: usize, align: usize) -> Result<(), Error> {
        if pos < self.start || self.end < pos || self.end - pos < size {
            return Err(Error::InvalidSubtreePointer { size });
        }
        if pos % align != 0 {
            return Err(Error::Unaligned { align });
        }
        Ok(())
    }

    fn push_subtree_range(&mut self, pos: usize, end: usize) -> Result<PushedRange, Error> {
        let open = self.pushes.len();
        if let Some(most) = self.most {
            if most <= open {
                return Err(Error::ExceededMaximumSubtreeDepth);
            }
        }
        let range = PushedRange {
            pos,
            end,
            outer: self.end,
        };
        self.pushes.push(range)?;
        self.end = pos;
        Ok(range)
    }

    fn pop_subtree_range(&mut self, range: PushedRange) -> Result<(), Error> {
        let Some(last) = self.pushes.last() else {
            return Err(Error::RangePoppedTooManyTimes);
        };
        if *last != range {
            return Err(Error::RangePoppedOutOfOrder);
        }
        self.pushes.pop();
        self.start = range.end;
        self.end = range.outer;
        Ok(())
    }

    fn claim_bytes(&mut self, pos: usize, size: usize) -> Result<(), Error> {
        self.check_subtree_ptr(pos, size, 1)?;
        if let Some(most) = self.most {
            if most <= self.pushes.len() {
                return Err(Error::ExceededMaximumSubtreeDepth);
            }
        }
        self.start = pos + size;
        Ok(())
    }
}
