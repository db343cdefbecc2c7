//! The trait of types whose values can be checked.
ghost use Rattle.std.specs.Prelude.{◌≡◌, ℕ, ◌+◌, ◌≤◌, length};
ghost use Rattle.archive_shape_layout.specs.Shape.{size_of};
ghost use Rattle.archive_shape_layout.specs.Content.{Names};
ghost use Rattle.archive_shape_layout.specs.Content.Part.{at};
ghost use Rattle.archive_shape.specs.Kept.{Kept, IsWithin};
ghost use Rattle.archive_shape.specs.Checks.{ChecksAt, Moves};

mod leaves;
mod without_bytes;

use crate::checking::{ArchiveContext, Error};
use crate::types::Portable;
pub use leaves::check_leaf;
use std::alloc::Global;

/// A type whose values are checked in a context.
pub trait CheckBytes<C: ArchiveContext>: Portable {
    /// Checks the value at `pos`, and starts the context's range again after the last region that it claims.
    fn check(alloc: Global, bytes: &[u8], pos: usize, context: &mut C) -> Result<(), Error>
        requires fits { pos + size_of Self.shape ≤ length bytes.now }
        requires range { IsWithin (C.kept context.old) (length bytes.now) }
        ensures moves { Moves (C.kept context.old) result (C.kept context.new) }
        ensures exact { ChecksAt C.kept Self.knows bytes.now pos Self.shape context.old result context.new };
}
