//! `ArchiveContextExt`, with methods that claim a region for the duration of a call.
ghost use Rattle.std.specs.Prelude.{◌<◌, ◌^◌};
ghost use Rattle.archive_shape_layout.specs.Shape.Pointee.{sized};
ghost use Rattle.archive_shape.specs.Questions.{pointee_span};
ghost use Rattle.archive_core_validation.specs.Subtrees.{TakesClaimed, KeepsPushes, InSubtree};

use archive_shape::{ArchiveContext, Portable};
use archive_shape_layout::Error;

/// Methods of every context.
pub trait ArchiveContextExt: ArchiveContext {
    /// Claims `[pos, pos + size)`, and calls `f` in the range before it. Then the range starts again after the region.
    ///
    /// Returns `InvalidSubtreePointer` with the size of a region that is not in the range, then `Unaligned`, then
    /// `ExceededMaximumSubtreeDepth`, then the error of `f`.
    fn in_subtree_raw<R: Drop, F: FnOnce(&mut Self) -> Result<R, Error>>(
        &mut self,
        pos: usize,
        size: usize,
        align: usize,
        f: F,
    ) -> Result<R, Error>
        requires align { 0 < align }
        requires range { (Self.kept self.old).end < 2 ^ 64 }
        requires takes { TakesClaimed F.FnOnce Self.kept f (Self.kept self.old)
            (record { start = pos; size = size; align = align }) }
        requires keeps { KeepsPushes F.FnOnce Self.kept f (Self.kept self.old)
            (record { start = pos; size = size; align = align }) }
        ensures { InSubtree F.FnOnce Self.kept f (Self.kept self.old)
            (record { start = pos; size = size; align = align }) result (Self.kept self.new) };

    /// Claims the own bytes of a value at `pos`, and calls `f` in the range before them, as `in_subtree_raw` does.
    fn in_subtree<T: Portable, R: Drop, F: FnOnce(&mut Self) -> Result<R, Error>>(
        &mut self,
        pos: usize,
        f: F,
    ) -> Result<R, Error>
        requires range { (Self.kept self.old).end < 2 ^ 63 }
        requires takes { TakesClaimed F.FnOnce Self.kept f (Self.kept self.old)
            (pointee_span pos (sized T.shape) 1) }
        requires keeps { KeepsPushes F.FnOnce Self.kept f (Self.kept self.old)
            (pointee_span pos (sized T.shape) 1) }
        ensures { InSubtree F.FnOnce Self.kept f (Self.kept self.old)
            (pointee_span pos (sized T.shape) 1) result (Self.kept self.new) };
}

impl<C: ArchiveContext> ArchiveContextExt for C {
    fn in_subtree_raw<R: Drop, F: FnOnce(&mut Self) -> Result<R, Error>>(
        &mut self,
        pos: usize,
        size: usize,
        align: usize,
        f: F,
    ) -> Result<R, Error> {
        self.check_subtree_ptr(pos, size, align)?;
        let range = self.push_subtree_range(pos, pos + size)?;
        let value = f(self)?;
        self.pop_subtree_range(range)?;
        Ok(value)
    }

    fn in_subtree<T: Portable, R: Drop, F: FnOnce(&mut Self) -> Result<R, Error>>(
        &mut self,
        pos: usize,
        f: F,
    ) -> Result<R, Error> {
        self.in_subtree_raw::<R, F>(pos, T::SIZE, T::ALIGN, f)
    }
}
