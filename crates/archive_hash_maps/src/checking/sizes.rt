//! The sizes in bytes of the buckets and controls of a table.
ghost use Rattle.std.specs.Prelude.{◌≡◌, ◌+◌, ◌*◌, ◌-◌, ◌^◌, ◌<◌, min};
ghost use Rattle.archive_shape_layout.specs.Shape.{size_of};
ghost use Rattle.archive_shape_layout.specs.Content.{control_count};

use archive_forms_values::next_multiple;
use archive_shape::Portable;

/// Returns the number of controls of a table of `capacity` places: one for each place, rounded up to a multiple of
/// sixteen, and fifteen more.
#[tactic(auto, unfolding(archive_shape_layout::specs::Content::control_count, archive_shape_layout::specs::Bytes::align_up))]
pub fn control_count(capacity: usize) -> usize
    requires { capacity < 2 ^ 32 }
    ensures { result ≡ control_count capacity }
{
    next_multiple(capacity, 16) + 15
}

/// Returns the size in bytes of all buckets of a table of `capacity` places, at most `usize::MAX`.
pub(crate) fn buckets_size<T: Portable>(capacity: usize) -> usize
    ensures { result ≡ min (capacity * size_of T.shape) (2 ^ 64 - 1) }
{
    capacity.saturating_mul(T::SIZE)
}

/// Returns the size in bytes of the region that a table of `capacity` places claims, its buckets and its controls, at
/// most `usize::MAX`.
pub(crate) fn table_size<T: Portable>(capacity: usize) -> usize
    requires { capacity < 2 ^ 32 }
    ensures { result ≡ min (capacity * size_of T.shape + control_count capacity) (2 ^ 64 - 1) }
{
    buckets_size::<T>(capacity).saturating_add(control_count(capacity))
}
