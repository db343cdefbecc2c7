//! Writes the region of a table: its buckets and its controls.
ghost use Rattle.std.specs.Prelude.{◌-◌, ◌^◌, ◌<◌, length};
ghost use Rattle.archive_hash_writing.specs.Calls.{FindsControls, AreMade, WritesRegion};

use crate::buckets::write_buckets;
use archive_forms_writing::{ArchiveWith, align};
use archive_shape::{Allocator, Error, Portable, Writer};

/// The last position at which the region of a table may begin.
const LAST_POSITION: usize = u32::MAX as usize;

/// Returns the position at which the buckets of a table that begin at `from` end and its controls begin. Returns `None`
/// if the region begins after the last allowed position, or does not end before position 2^64.
fn controls_position<T: Portable>(from: usize, places: usize, controls: usize) -> Option<usize>
    requires places { 0 < places }
    requires controls { 0 < controls }
    ensures { FindsControls T.shape from places controls result }
{
    if from > LAST_POSITION {
        return None;
    }
    let size = places.checked_mul(T::SIZE)?;
    let to = from.checked_add(size)?;
    to.checked_add(controls)?;
    Some(to)
}

/// Writes the buckets and the controls of a table after the data of its items. Returns the position of the controls.
pub(crate) fn write_region<'a, T, A: ArchiveWith<T>, S: Writer + Allocator>(
    with: &A,
    table: &[Option<&'a T>],
    kept: &[A::Resolver],
    controls: &[u8],
    serializer: &mut S,
) -> Result<usize, Error>
    requires room { S.failures serializer.old < 2 ^ 64 - 1 }
    requires places { 0 < length table.now }
    requires controls { 0 < length controls.now }
    requires made { AreMade (A.spelling with.now) table.now kept.now }
    ensures { WritesRegion (A.spelling with.now) table.now kept.now A.Archived.shape S.Writer controls.now
        serializer.old serializer.new result }
{
    let from = align(serializer, A::Archived::ALIGN)?;
    let Some(to) = controls_position::<A::Archived>(from, table.len(), controls.len()) else {
        return Err(Error::PositionTooLarge);
    };
    write_buckets(with, table, kept, serializer)?;
    serializer.write(controls)?;
    Ok(to)
}
