//! The offsets at which fields begin and end in C's layout.
ghost use Rattle.std.specs.Prelude.{◌≡◌, ℕ, ◌+◌, ◌-◌, ◌^◌, ◌<◌, min, max};
ghost use Rattle.archive_shape_layout.specs.Bytes.{align_up};

/// Returns the first multiple of `align` that is at least `offset`, at most `usize::MAX`.
pub const fn next_multiple(offset: usize, align: usize) -> usize
    requires { 0 < align }
    ensures { result ≡ min (align_up offset align) (2 ^ 64 - 1) }
{
    offset.saturating_add((align - offset % align) % align)
}

/// Returns the offset at which a field ends that begins at the first multiple of `align` from `offset` on and has
/// `size` bytes, at most `usize::MAX`.
pub const fn field_end(offset: usize, size: usize, align: usize) -> usize
    requires { 0 < align }
    ensures { result ≡ min (align_up offset align + size) (2 ^ 64 - 1) }
{
    next_multiple(offset, align).saturating_add(size)
}

/// Returns the greater of the two. Unlike `max`, it can be called in constants.
pub const fn greater(first: usize, second: usize) -> usize
    ensures { result ≡ max first second }
{
    if first < second { second } else { first }
}
