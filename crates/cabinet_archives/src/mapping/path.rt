//! The steps from the root to a node, and how a line of a map has them.
ghost use Rattle.std.specs.Prelude.{◌-◌, ◌^◌, ◌<◌};
ghost use Rattle.archive_shape_layout.specs.Writing.{Writes};
ghost use Rattle.cabinet_text_grammar.specs.Line.{spelled_path};
ghost use Rattle.cabinet_archives.specs.MapPaths.{path_of};

use archive_shape_layout::{Error, Writer, write_two_pieces};
use cabinet_text_bytes::{Decimal, write_escaped};

/// The steps from the root to a node, the last one behind those before it.
#[derive(Clone, Copy)]
pub(crate) enum Path<'a> {
    /// No steps: those to the root.
    Root,
    /// A step by the key of a map.
    Key(&'a Path<'a>, &'a str),
    /// A step by the place in a list.
    Place(&'a Path<'a>, u64),
    /// A step into an option or a whole.
    Inside(&'a Path<'a>),
}

/// Writes the steps of a path, each after a space.
pub(crate) fn write_path<W: Writer>(path: &Path<'_>, writer: &mut W) -> Result<(), Error>
    requires { W.failures writer.old < 2 ^ 64 - 1 }
    ensures { Writes W.Writer writer.old writer.new (spelled_path (path_of path.now)) result }
{
    match path {
        Path::Root => Ok(()),
        Path::Key(outer, key) => {
            write_path(outer, writer)?;
            writer.write(b" '")?;
            write_escaped(key.as_bytes(), writer)
        }
        Path::Place(outer, place) => {
            write_path(outer, writer)?;
            write_two_pieces(writer, b" #", Decimal::unsigned(*place).as_bytes())
        }
        Path::Inside(outer) => {
            write_path(outer, writer)?;
            writer.write(b" ?")
        }
    }
}
