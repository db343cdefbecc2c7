//! Writes the lines of heads, of keys and of numbers of wholes.
ghost use Rattle.std.specs.Prelude.{◌-◌, ◌^◌, ◌<◌, ◌++◌, [], ◌∷◌, codes};
ghost use Rattle.std.specs.Fmt.{decimal};
ghost use Rattle.archive_shape_layout.specs.Writing.{Writes};
ghost use Rattle.cabinet_text_grammar.specs.Item.{key_item, whole_item, wholes_item};
ghost use Rattle.cabinet_text_grammar.specs.Spelling.{escaped, spelled, spelled_leaf};
ghost use Rattle.cabinet_text_nodes.specs.View.{lent_leaf, lent_item};
ghost use Rattle.cabinet_text_bytes.specs.Calls.{WritesLine};

use crate::head::HeadRef;
use crate::leaf::LeafRef;
use archive_shape_layout::{Error, Writer, write_three_pieces};
use cabinet_text_bytes::{Decimal, write_escaped_line};

/// Writes a word, the escaped form of a text, and a newline.
fn write_text_line<W: Writer>(word: &[u8], text: &str, writer: &mut W) -> Result<(), Error>
    requires { W.failures writer.old < 2 ^ 64 - 1 }
    ensures { Writes W.Writer writer.old writer.new
        (word.now ++ (escaped text.now ++ codes "\n")) result }
{
    writer.write(word)?;
    write_escaped_line(text.as_bytes(), writer)
}

/// Writes a word, a count, and a newline.
fn write_count_line<W: Writer>(word: &[u8], count: u64, writer: &mut W) -> Result<(), Error>
    requires { W.failures writer.old < 2 ^ 64 - 1 }
    ensures { Writes W.Writer writer.old writer.new (word.now ++ (decimal count ++ codes "\n")) result }
{
    write_three_pieces(writer, word, Decimal::unsigned(count).as_bytes(), b"\n")
}

/// Writes the line of a leaf.
fn write_leaf_line<W: Writer>(leaf: LeafRef<'_>, writer: &mut W) -> Result<(), Error>
    requires { W.failures writer.old < 2 ^ 64 - 1 }
    ensures { WritesLine W.Writer writer.old writer.new (spelled_leaf (lent_leaf leaf.entry)) result }
{
    match leaf {
        LeafRef::Bool(true) => writer.write(b"bool true\n"),
        LeafRef::Bool(false) => writer.write(b"bool false\n"),
        LeafRef::Int(number) => {
            write_three_pieces(writer, b"int ", Decimal::new(number).as_bytes(), b"\n")
        }
        LeafRef::Text(text) => write_text_line(b"text '", text, writer),
    }
}

/// Writes the line of a head, with its newline. It allocates no memory.
pub fn write_head<W: Writer>(head: HeadRef<'_>, writer: &mut W) -> Result<(), Error>
    requires { W.failures writer.old < 2 ^ 64 - 1 }
    ensures { WritesLine W.Writer writer.old writer.new (spelled (lent_item head.entry)) result }
{
    match head {
        HeadRef::Leaf(leaf) => write_leaf_line(leaf, writer),
        HeadRef::Shared(text) => write_text_line(b"shared '", text, writer),
        HeadRef::None => writer.write(b"none\n"),
        HeadRef::Some => writer.write(b"some\n"),
        HeadRef::List(count) => write_count_line(b"list ", count, writer),
        HeadRef::Ordered(count) => write_count_line(b"ordered ", count, writer),
        HeadRef::Hashed(count) => write_count_line(b"hashed ", count, writer),
        HeadRef::Kept(count) => write_count_line(b"kept ", count, writer),
        HeadRef::Whole => writer.write(b"whole\n"),
    }
}

/// Writes the line of the whole with this number, as the text of a document has it.
pub(crate) fn write_whole_line<W: Writer>(number: u64, writer: &mut W) -> Result<(), Error>
    requires { W.failures writer.old < 2 ^ 64 - 1 }
    ensures { WritesLine W.Writer writer.old writer.new (spelled (whole_item number)) result }
{
    write_count_line(b"whole ", number, writer)
}

/// Writes the line that tells the number of a document's wholes.
pub(crate) fn write_wholes_line<W: Writer>(count: u64, writer: &mut W) -> Result<(), Error>
    requires { W.failures writer.old < 2 ^ 64 - 1 }
    ensures { WritesLine W.Writer writer.old writer.new (spelled (wholes_item count)) result }
{
    write_count_line(b"wholes ", count, writer)
}

/// Writes the line of a key, with its newline. It allocates no memory.
pub fn write_key_line<W: Writer>(key: &str, writer: &mut W) -> Result<(), Error>
    requires { W.failures writer.old < 2 ^ 64 - 1 }
    ensures { WritesLine W.Writer writer.old writer.new (spelled (key_item key.now)) result }
{
    write_text_line(b"'", key, writer)
}
