//! Answers to questions about the document that bytes are the archive of.
ghost use Rattle.std.specs.Prelude.{◌-◌, ◌^◌, ◌<◌, IfOk};
ghost use Rattle.archive_shape_layout.specs.Content.Part.{at};
ghost use Rattle.archive_shape_layout.specs.Writing.{Writes};
ghost use Rattle.archive_forms_values.specs.Parts.{HasValue};
ghost use Rattle.cabinet_text_grammar.specs.Answering as grammar;
ghost use Rattle.cabinet_text_grammar.specs.Answering.{answer, keys_of, keys_within, spelled_answer};
ghost use Rattle.cabinet_documents.specs.Node.{node_shape, KnowsNode};
ghost use Rattle.cabinet_text_nodes.specs.Answers.{Tells};
ghost use Rattle.cabinet_text_nodes.specs.Lines.{IsQuestion};
ghost use Rattle.cabinet_text_nodes.specs.View.{line_of};
ghost use Rattle.cabinet_archives.specs.Failing.{FailsByWriter};
ghost use Rattle.cabinet_archives.specs.Found.{OfDocument};
ghost use Rattle.cabinet_archives.specs.Sound.{IsSoundPart};

use crate::asking::heads::head;
use crate::asking::keys::{write_kept_keys, write_keys_within, write_ordered_keys};
use crate::asking::walk::find;
use archive_hash_probing::Scan;
use archive_shape::Ref;
use archive_shape_layout::{Error, Writer};
use cabinet_archived::{ArchivedKind, ArchivedNode};
use cabinet_text_nodes::{Asked, Line, answer_missing, answer_wrong, write_head};

/// Writes the head of a node as the answer.
fn answer_head<W: Writer>(node: Ref<'_, ArchivedNode>, writer: &mut W) -> Result<Asked, Error>
    requires there { HasValue node_shape KnowsNode node.bytes.now node.pos }
    requires room { W.failures writer.old < 2 ^ 64 - 1 }
    ensures written { OfDocument node.entry.bytes.now node.entry.pos
        (λ t. Writes W.Writer writer.old writer.new
        (spelled_answer (grammar.head (grammar.head_of t))) result) }
    ensures asked { IfOk result (λ asked. OfDocument node.entry.bytes.now node.entry.pos
        (λ t. Tells asked (grammar.head (grammar.head_of t)))) }
    ensures counted { FailsByWriter W.Writer writer.old writer.new result }
{
    write_head(head(node), writer)?;
    Ok(Asked::Answered)
}

/// Writes the keys of a node, or the answer that it has none in an order.
fn answer_keys<W: Writer>(node: Ref<'_, ArchivedNode>, writer: &mut W) -> Result<Asked, Error>
    requires there { HasValue node_shape KnowsNode node.bytes.now node.pos }
    requires room { W.failures writer.old < 2 ^ 64 - 1 }
    ensures written { OfDocument node.entry.bytes.now node.entry.pos
        (λ t. Writes W.Writer writer.old writer.new (spelled_answer (keys_of t)) result) }
    ensures asked { IfOk result (λ asked. OfDocument node.entry.bytes.now node.entry.pos
        (λ t. Tells asked (keys_of t))) }
    ensures counted { FailsByWriter W.Writer writer.old writer.new result }
{
    match ArchivedNode::kind(node) {
        ArchivedKind::Ordered(map) => {
            write_ordered_keys(map, writer)?;
            Ok(Asked::Answered)
        }
        ArchivedKind::Kept(map) => {
            write_kept_keys(map, writer)?;
            Ok(Asked::Answered)
        }
        _ => answer_wrong(writer),
    }
}

/// Writes the keys of an ordered map at or above the first bound and below the second. For each other node, writes the
/// answer that it has none in an order.
fn answer_range<W: Writer>(
    node: Ref<'_, ArchivedNode>,
    low: &str,
    high: &str,
    writer: &mut W,
) -> Result<Asked, Error>
    requires there { HasValue node_shape KnowsNode node.bytes.now node.pos }
    requires sound { IsSoundPart node.bytes.now (at node.pos node_shape) }
    requires room { W.failures writer.old < 2 ^ 64 - 1 }
    ensures written { OfDocument node.entry.bytes.now node.entry.pos
        (λ t. Writes W.Writer writer.old writer.new
        (spelled_answer (keys_within low.now high.now t)) result) }
    ensures asked { IfOk result (λ asked. OfDocument node.entry.bytes.now node.entry.pos
        (λ t. Tells asked (keys_within low.now high.now t))) }
    ensures counted { FailsByWriter W.Writer writer.old writer.new result }
{
    match ArchivedNode::kind(node) {
        ArchivedKind::Ordered(map) => {
            write_keys_within(map, low, high, writer)?;
            Ok(Asked::Answered)
        }
        _ => answer_wrong(writer),
    }
}

/// Writes the line that answers a question. Reads only the nodes on the line's path and those that hold the keys that it
/// asks for, and does not allocate. The caller chooses the scan `G`, by which keys of hashed maps are looked up.
pub fn ask<G: Scan, W: Writer>(
    root: Ref<'_, ArchivedNode>,
    line: &Line,
    writer: &mut W,
) -> Result<Asked, Error>
    requires there { HasValue node_shape KnowsNode root.bytes.now root.pos }
    requires sound { IsSoundPart root.bytes.now (at root.pos node_shape) }
    requires question { IsQuestion (line_of line.now) }
    requires room { W.failures writer.old < 2 ^ 64 - 1 }
    ensures written { OfDocument root.entry.bytes.now root.entry.pos
        (λ t. Writes W.Writer writer.old writer.new
        (spelled_answer (answer t (line_of line.now))) result) }
    ensures asked { IfOk result (λ asked. OfDocument root.entry.bytes.now root.entry.pos
        (λ t. Tells asked (answer t (line_of line.now)))) }
    ensures counted { FailsByWriter W.Writer writer.old writer.new result }
{
    let path = match line {
        Line::Get(path) | Line::Keys(path) => path,
        Line::Range { path, .. } | Line::Set { path, .. } => path,
    };
    let Some(node) = find::<G>(root, path) else {
        return answer_missing(writer);
    };
    match line {
        Line::Keys(_) => answer_keys(node, writer),
        Line::Range { lo, hi, .. } => answer_range(node, lo.as_str(), hi.as_str(), writer),
        Line::Get(_) | Line::Set { .. } => answer_head(node, writer),
    }
}
