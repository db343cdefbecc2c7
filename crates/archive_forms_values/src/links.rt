//! Pointers that lead to what was written, or to nothing.

ghost use Rattle.std.specs.Prelude.{◌+◌, ◌≤◌, length};
ghost use Rattle.archive_forms_values.specs.Calls.Writing.{EmplacesLink};

use archive_shape::{Place, RawRelPtrI32};
use archive_shape_layout::Error;

/// Writes a pointer of four bytes to the position `to`, or with `None` the pointer that leads to nothing, whose offset
/// is 1.
///
/// Returns `IsizeOverflow` if the offset does not fit in an `i32`.
pub fn emplace_link(to: Option<usize>, out: Place<'_, RawRelPtrI32>) -> Result<(), Error>
    requires { out.start + 4 ≤ length out.out.now }
    ensures { EmplacesLink to out.entry result out.exit.0.now }
{
    let Place {
        out,
        start,
        pos,
        ..
    } = out;
    match to {
        Some(to) => RawRelPtrI32::try_emplace(to, Place::within(out, start, pos)),
        None => RawRelPtrI32::try_emplace_invalid(Place::within(out, start, pos)),
    }
}
