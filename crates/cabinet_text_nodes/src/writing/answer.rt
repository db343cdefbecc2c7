//! Writes the lines of answers, and the parts of answers that list keys.
ghost use Rattle.std.specs.Prelude.{◌-◌, ◌^◌, ◌<◌, ◌++◌, [], ◌∷◌, IfOk, codes};
ghost use Rattle.std.specs.Fmt.{decimal};
ghost use Rattle.archive_shape_layout.specs.Writing.{Writes};
ghost use Rattle.cabinet_text_grammar.specs.Answering.{spelled_answer, wrong, missing, bad};
ghost use Rattle.cabinet_text_grammar.specs.Item.{key_item};
ghost use Rattle.cabinet_text_grammar.specs.Spelling.{spelled};
ghost use Rattle.cabinet_text_nodes.specs.Answers.{Tells};
ghost use Rattle.cabinet_text_nodes.specs.Outcomes.{outcome_of};

use crate::answer::{Asked, EditAnswer};
use archive_shape_layout::{Error, Writer, write_two_pieces};
use cabinet_text_bytes::{Decimal, write_escaped};

/// Writes the beginning of an answer that lists `count` keys.
pub fn write_keys_head<W: Writer>(count: u64, writer: &mut W) -> Result<(), Error>
    requires { W.failures writer.old < 2 ^ 64 - 1 }
    ensures { Writes W.Writer writer.old writer.new (codes "keys " ++ decimal count) result }
{
    write_two_pieces(writer, b"keys ", Decimal::unsigned(count).as_bytes())
}

/// Writes a key of an answer, after a space.
pub fn write_key<W: Writer>(key: &str, writer: &mut W) -> Result<(), Error>
    requires { W.failures writer.old < 2 ^ 64 - 1 }
    ensures { Writes W.Writer writer.old writer.new (codes " " ++ spelled (key_item key.now)) result }
{
    writer.write(b" '")?;
    write_escaped(key.as_bytes(), writer)
}

/// Writes the answer to a question about a path that leads nowhere.
pub fn write_missing<W: Writer>(writer: &mut W) -> Result<(), Error>
    requires { W.failures writer.old < 2 ^ 64 - 1 }
    ensures { Writes W.Writer writer.old writer.new (spelled_answer missing) result }
{
    writer.write(b"missing\n")
}

/// Writes the answer to a question about the keys of a node that has none in an order.
pub fn write_wrong<W: Writer>(writer: &mut W) -> Result<(), Error>
    requires { W.failures writer.old < 2 ^ 64 - 1 }
    ensures { Writes W.Writer writer.old writer.new (spelled_answer wrong) result }
{
    writer.write(b"wrong\n")
}

/// Writes the answer that the path leads to no node.
pub fn answer_missing<W: Writer>(writer: &mut W) -> Result<Asked, Error>
    requires { W.failures writer.old < 2 ^ 64 - 1 }
    ensures written { Writes W.Writer writer.old writer.new (spelled_answer missing) result }
    ensures asked { IfOk result (λ asked. Tells asked missing) }
{
    write_missing(writer)?;
    Ok(Asked::Missing)
}

/// Writes the answer that a node has no keys in an order.
pub fn answer_wrong<W: Writer>(writer: &mut W) -> Result<Asked, Error>
    requires { W.failures writer.old < 2 ^ 64 - 1 }
    ensures written { Writes W.Writer writer.old writer.new (spelled_answer wrong) result }
    ensures asked { IfOk result (λ asked. Tells asked wrong) }
{
    write_wrong(writer)?;
    Ok(Asked::Wrong)
}

/// Writes the answer to bytes that are no line.
pub fn write_bad<W: Writer>(writer: &mut W) -> Result<(), Error>
    requires { W.failures writer.old < 2 ^ 64 - 1 }
    ensures { Writes W.Writer writer.old writer.new (spelled_answer bad) result }
{
    writer.write(b"bad\n")
}

/// Writes the answer to an edit.
pub fn write_outcome<W: Writer>(outcome: EditAnswer, writer: &mut W) -> Result<(), Error>
    requires { W.failures writer.old < 2 ^ 64 - 1 }
    ensures { Writes W.Writer writer.old writer.new (spelled_answer (outcome_of outcome)) result }
{
    match outcome {
        EditAnswer::Done => writer.write(b"ok\n"),
        EditAnswer::Missing => write_missing(writer),
        EditAnswer::Refused => writer.write(b"refused\n"),
    }
}
