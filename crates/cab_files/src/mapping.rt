//! The map of an archive file's bytes.
ghost use Rattle.std.specs.Prelude.{◌-◌, ◌^◌, ◌<◌};
ghost use Rattle.cab_files.specs.Showing.{WritesMap};

use archive_shape_layout::{Error, Writer};
use cabinet::{OpenRefusal, check};
use cabinet_archives::write_map;
use std::alloc::Global;

/// Writes the map of bytes that are an archive, with at most so many lines of regions, and in each at most so many
/// characters of a path. Of bytes that are refused nothing is written.
pub fn write_checked_map<W: Writer>(
    alloc: Global,
    archive: &[u8],
    lines: Option<u64>,
    characters: Option<u64>,
    writer: &mut W,
) -> Result<Result<(), Error>, OpenRefusal>
    requires { W.failures writer.old < 2 ^ 64 - 1 }
    ensures { WritesMap W.Writer archive.now lines characters writer.old writer.new result }
{
    match check(alloc, archive) {
        Ok(()) => Ok(write_map(archive, lines, characters, writer)),
        Err(refusal) => Err(refusal),
    }
}
