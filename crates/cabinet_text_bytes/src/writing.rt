//! Writes texts in their escaped form.
ghost use Rattle.std.specs.Prelude.{◌-◌, ◌^◌, ◌<◌};
ghost use Rattle.archive_shape_layout.specs.Writing.{Writes};
ghost use Rattle.cabinet_text_grammar.specs.Spelling.{escaped};
ghost use Rattle.cabinet_text_bytes.specs.Calls.{GivesEscape, WritesLine};

use archive_shape_layout::{Error, Writer, write_two_pieces};

/// Returns the escape of a byte, or `None` if the byte represents itself.
fn escape_of(byte: u8) -> Option<&'static [u8]>
    ensures { GivesEscape byte result }
{
    match byte {
        b'\\' => Some(b"\\\\"),
        b'\n' => Some(b"\\n"),
        b' ' => Some(b"\\s"),
        _ => None,
    }
}

/// Writes a text in its escaped form.
pub fn write_escaped<W: Writer>(text: &[u8], writer: &mut W) -> Result<(), Error>
    requires { W.failures writer.old < 2 ^ 64 - 1 }
    ensures { Writes W.Writer writer.old writer.new (escaped text.now) result }
{
    let mut start = 0;
    for (end, byte) in text.iter().enumerate() {
        if let Some(escape) = escape_of(*byte) {
            write_two_pieces(writer, &text[start..end], escape)?;
            start = end + 1;
        }
    }
    writer.write(&text[start..])
}

/// Writes a text in its escaped form, and a newline.
pub fn write_escaped_line<W: Writer>(text: &[u8], writer: &mut W) -> Result<(), Error>
    requires { W.failures writer.old < 2 ^ 64 - 1 }
    ensures { WritesLine W.Writer writer.old writer.new (escaped text.now) result }
{
    write_escaped(text, writer)?;
    writer.write(b"\n")
}
