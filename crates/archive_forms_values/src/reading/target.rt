//! The target of the pointer of a box or vector.
ghost use Rattle.std.specs.Prelude.{◌≡◌, ℕ, ◌+◌, ◌≤◌, length};
ghost use Rattle.archive_forms_values.specs.Parts.{PointsTo};

use archive_shape::{RawRelPtrI32, Ref};

/// Returns the position that the pointer at `pos` leads to.
pub fn target_of(bytes: &[u8], pos: usize) -> usize
    requires fits { pos + 4 ≤ length bytes.now }
    requires leads { (to : ℕ) × PointsTo bytes.now pos to }
    ensures { PointsTo bytes.now pos result }
{
    let _len = bytes.len();
    RawRelPtrI32::target(Ref::new(bytes, pos)).unwrap()
}
