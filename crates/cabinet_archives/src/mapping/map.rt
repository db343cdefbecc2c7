//! The map of the bytes of an archive.
ghost use Rattle.std.specs.Prelude.{◌-◌, ◌^◌, ◌<◌, List, length};
ghost use Rattle.archive_shape_layout.specs.Writing.{Writes};
ghost use Rattle.cabinet_text_grammar.specs.Tree.{Tree};
ghost use Rattle.cabinet_documents.specs.Accepted.{Accepted};
ghost use Rattle.cabinet_archives.specs.MapLaws.{RootMaps};
ghost use Rattle.cabinet_archives.specs.MapLines.{spelled_end, spelled_map};
ghost use Rattle.cabinet_archives.specs.Mapping.{Listed};

use crate::mapping::lines::{write_gap, write_more, write_region};
use crate::mapping::nodes::map_node;
use crate::mapping::path::Path;
use crate::mapping::region::RegionKind;
use crate::mapping::summary::write_summary;
use crate::mapping::tally::Tally;
use archive_core_validation::root_position;
use archive_shape::{Portable, Ref};
use archive_shape_layout::{Error, Writer};
use cabinet_archived::ArchivedNode;

/// The size of the root.
const ROOT: usize = ArchivedNode::SIZE;

/// Writes what follows the line of the last region of an archive of `len` bytes.
fn write_end<W: Writer>(len: usize, tally: &mut Tally, writer: &mut W) -> Result<(), Error>
    requires room { W.failures writer.old < 2 ^ 64 - 1 }
    ensures { Writes W.Writer writer.old writer.new (spelled_end tally.old len) result }
{
    write_gap(len, tally, writer)?;
    write_more(tally, writer)?;
    writer.write(b"\n")?;
    write_summary(tally, writer)
}

/// Writes the map of an archive: a line for each region, at most `lines`, with at most `characters` characters of its path,
/// and a summary. The bytes are those of an archive that was accepted. It takes no memory, and recurses as deep as
/// containers, and the nodes of search trees in them, lie in one another.
pub fn write_map<W: Writer>(
    bytes: &[u8],
    lines: Option<u64>,
    characters: Option<u64>,
    writer: &mut W,
) -> Result<(), Error>
    requires accepted { ∥ ((t : Tree) × Accepted bytes.now t) ∥₁ }
    requires room { W.failures writer.old < 2 ^ 64 - 1 }
    ensures { (listed : List Listed) → RootMaps bytes.now listed
        → Writes W.Writer writer.old writer.new (spelled_map (length bytes.now) lines characters listed) result }
{
    let mut tally = Tally::new(lines, characters);
    let root = root_position::<ArchivedNode>(bytes.len());
    map_node(Ref::new(bytes, root), 0, &Path::Root, &mut tally, writer)?;
    write_region(
        root,
        ROOT,
        RegionKind::Root,
        &Path::Root,
        &mut tally,
        writer,
    )?;
    write_end(bytes.len(), &mut tally, writer)
}
