//! The position of a root.
ghost use Rattle.std.specs.Prelude.{◌≡◌};
ghost use Rattle.archive_shape_layout.specs.Holds.{root_position as position_of_root};

use archive_shape::Portable;

/// Returns the position of the root of type `T` in a buffer of `len` bytes: `len` less the size of `T`, rounded down to
/// its alignment. It is 0 if the root does not fit.
pub fn root_position<T: Portable>(len: usize) -> usize
    ensures { result ≡ position_of_root len T.shape }
{
    let start = len.saturating_sub(T::SIZE);
    start - start % T::ALIGN
}
