//! A context of checks that keeps a range and its open pushes.
ghost use Rattle.std.specs.Prelude.{◌≡◌, None};

use archive_shape::{ArchiveContext, Error, PushedRange};
use std::alloc::Global;

/// A context that keeps no shared positions. Its memory grows with the depth of the pushes.
#[derive(Drop)]
pub struct RangeContext {
    start: usize,
    end: usize,
    most: usize,
    pushes: Vec<PushedRange>,
}

impl RangeContext {
    /// Returns a context whose range is the first `end` bytes, with at most `most` pushes.
    pub fn new(alloc: Global, end: usize, most: usize) -> Self
        ensures start { result.start ≡ 0 }
        ensures end { result.end ≡ end }
    {
        RangeContext {
            start: 0,
            end,
            most,
            pushes: Vec::new(alloc),
        }
    }
}

impl ArchiveContext for RangeContext {
    ghost kept = { λ c. record {
      start = c.start;
      end = c.end;
      most = c.most;
      pushes = c.pushes.items;
      seen = λ _. None;
    } };

    fn check_subtree_ptr(&self, pos: usize, size: usize, align: usize) -> Result<(), Error> {
        if pos < self.start || self.end < pos || self.end - pos < size {
            return Err(Error::InvalidSubtreePointer { size });
        }
        if pos % align != 0 {
            return Err(Error::Unaligned { align });
        }
        Ok(())
    }

    fn push_subtree_range(&mut self, pos: usize, end: usize) -> Result<PushedRange, Error> {
        if self.most <= self.pushes.len() {
            return Err(Error::ExceededMaximumSubtreeDepth);
        }
        let range = PushedRange {
            pos,
            end,
            outer: self.end,
        };
        self.pushes.push(range)?;
        self.end = pos;
        Ok(range)
    }

    fn pop_subtree_range(&mut self, range: PushedRange) -> Result<(), Error> {
        let Some(last) = self.pushes.last() else {
            return Err(Error::RangePoppedTooManyTimes);
        };
        if *last != range {
            return Err(Error::RangePoppedOutOfOrder);
        }
        self.pushes.pop();
        self.start = range.end;
        self.end = range.outer;
        Ok(())
    }

    fn claim_bytes(&mut self, pos: usize, size: usize) -> Result<(), Error> {
        self.check_subtree_ptr(pos, size, 1)?;
        if self.most <= self.pushes.len() {
            return Err(Error::ExceededMaximumSubtreeDepth);
        }
        self.start = pos + size;
        Ok(())
    }
}
