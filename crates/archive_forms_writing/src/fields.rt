//! The writing of the fields of tuples and structs.
ghost use Rattle.archive_forms_writing.specs.Fields.{ResolvesField, CanResolveField};

use crate::Archive;
use archive_forms_values::next_multiple;
use archive_shape::{Error, Place, Portable};

/// Writes the own bytes of a field at the next multiple of its alignment from `offset` on, in a struct that begins at
/// `start` of `out` and will be at position `pos` of the archive. The bytes there are zeros, and the field's data was
/// written before. Returns the offset at which the field ends.
pub fn resolve_field<T: Archive>(
    value: &T,
    resolver: T::Resolver,
    out: &mut [u8],
    start: usize,
    pos: usize,
    offset: usize,
) -> Result<usize, Error>
    requires { CanResolveField T.spelling T.Archived.shape value.now resolver pos start offset out.old }
    ensures { ResolvesField T.spelling T.Archived.shape value.now resolver pos start offset out.old
        out.new result }
{
    let _len = out.len();
    let from = next_multiple(offset, T::Archived::ALIGN);
    value.resolve(resolver, Place::within(out, start + from, pos + from))?;
    Ok(from + T::Archived::SIZE)
}
