//! Carrying out and answering a line.
ghost use Rattle.std.specs.Prelude.{◌≡◌, ◌≢◌, ◌+◌, ◌-◌, ◌^◌, ◌<◌, ◌≤◌, [], ◌∷◌, Some, IfOk, IfErr, OnOk, OnErr, option_map};
ghost use Rattle.cabinet_text_grammar.specs.Tree.{Tree};
ghost use Rattle.cabinet_text_grammar.specs.Line.{Says};
ghost use Rattle.cabinet_text_grammar.specs.Answering.{reply};
ghost use Rattle.cabinet_text.specs.Calls.{WriterEndsCall};
ghost use Rattle.cabinet.specs.Calls.{WritesAnswer, WritesReply, CountsEdit, CarriesLine, KeepsEdits};
ghost use Rattle.cabinet_text.specs.Session.{one_if_done};
ghost use Rattle.cabinet_text_nodes.specs.Lines.{IsQuestion};
ghost use Rattle.cabinet_text_nodes.specs.Outcomes.{outcome_of};
ghost use Rattle.cabinet_text_nodes.specs.View.{line_of};
ghost use Rattle.cabinet_text_reading.specs.Reading.{RefusesLine};
ghost use Rattle.cabinet_archives.specs.Failing.{FailsByWriter};
ghost use Rattle.cabinet.specs.Editing.{Edited};

use crate::opened::Opened;
use archive_hash_probing::Scan;
use archive_shape_layout::{Error, Writer};
use cabinet_text::{Count, RunCause};
use cabinet_text_nodes::{EditAnswer, Line, LineRefusal, write_bad, write_outcome};
use cabinet_text_reading::read_line;
use std::alloc::{AllocError, Global};

/// Returns the line that bytes say, or `None` if they are no line.
fn read_said(alloc: Global, bytes: &[u8]) -> Result<Option<Line>, AllocError>
    ensures said { IfOk result (λ line. Says bytes.now (option_map line_of line)) }
    ensures memory { OnErr result (RefusesLine bytes.now LineRefusal.OutOfMemory) }
{
    match read_line(alloc, bytes) {
        Ok(line) => Ok(Some(line)),
        Err(LineRefusal::Bad) => Ok(None),
        Err(LineRefusal::OutOfMemory) => Err(AllocError),
    }
}

/// Returns the number of edits that an outcome represents.
fn edits_in(outcome: EditAnswer) -> u64
    ensures counted { result ≡ one_if_done (outcome_of outcome) }
    ensures one { result ≤ 1 }
{
    match outcome {
        EditAnswer::Done => 1,
        EditAnswer::Missing | EditAnswer::Refused => 0,
    }
}

/// Writes the answer to a question.
fn answer_question<G: Scan, W: Writer>(
    opened: &Opened<'_, G>,
    question: &Line,
    writer: &mut W,
) -> Result<(), Error>
    requires question { IsQuestion (line_of question.now) }
    requires room { W.failures writer.old < 2 ^ 64 - 1 }
    ensures unedited { Edited opened.now.bytes.now opened.now.bytes.now
        (Some (line_of question.now) ∷ []) }
    ensures undone { (t : Tree) → one_if_done (reply t (Some (line_of question.now))) ≡ 0 }
    ensures written { WritesAnswer W.Writer opened.now.bytes.now question.now writer.old writer.new result }
    ensures counted { FailsByWriter W.Writer writer.old writer.new result }
{
    match opened.ask(question, writer) {
        Ok(_) => Ok(()),
        Err(refusal) => Err(refusal),
    }
}

/// Carries out what a line says, and writes the answer.
fn carry_out<G: Scan, W: Writer>(
    opened: &mut Opened<'_, G>,
    said: &Option<Line>,
    edits: &mut u64,
    writer: &mut W,
) -> Result<(), Error>
    requires room { W.failures writer.old < 2 ^ 64 - 1 }
    requires edits_fit { edits.old < 2 ^ 64 - 1 }
    ensures same { opened.new.bytes.ghost_name ≡ opened.old.bytes.ghost_name }
    ensures edited { Edited opened.old.bytes.now opened.new.bytes.now
        (option_map line_of said.now ∷ []) }
    ensures written { WritesReply W.Writer opened.old.bytes.now said.now writer.old writer.new result }
    ensures counted { FailsByWriter W.Writer writer.old writer.new result }
    ensures edits_counted { CountsEdit opened.old.bytes.now said.now edits.old edits.new }
    ensures edits_grow { edits.new ≤ edits.old + 1 }
{
    match said {
        None => write_bad(writer),
        Some(Line::Set { path, leaf }) => {
            let outcome = opened.set(path, leaf);
            *edits += edits_in(outcome);
            write_outcome(outcome, writer)
        }
        Some(question) => answer_question(opened, question, writer),
    }
}

/// Reads a line, carries it out and writes the answer.
pub(super) fn answer_line<G: Scan, W: Writer>(
    alloc: Global,
    opened: &mut Opened<'_, G>,
    line: &[u8],
    count: &mut Count,
    writer: &mut W,
) -> Result<(), RunCause>
    requires room { W.failures writer.old < 2 ^ 64 - 1 }
    requires lines_fit { count.old.lines < 2 ^ 64 - 1 }
    requires edits_within { count.old.edits ≤ count.old.lines }
    ensures same { opened.new.bytes.ghost_name ≡ opened.old.bytes.ghost_name }
    ensures lines_grow { count.new.lines ≤ count.old.lines + 1 }
    ensures line_counted { OnOk result (count.new.lines ≡ count.old.lines + 1) }
    ensures edits_within { count.new.edits ≤ count.new.lines }
    ensures not_read { IfErr result (λ cause. cause ≢ RunCause.Read) }
    ensures writer_fails { WriterEndsCall W.Writer writer.old writer.new result }
    ensures edits { KeepsEdits opened.old.bytes.now opened.new.bytes.now count.old count.new }
    ensures carried { CarriesLine W.Writer line.now opened.old.bytes.now opened.new.bytes.now writer.old writer.new count.old count.new result }
{
    let Ok(said) = read_said(alloc, line) else {
        return Err(RunCause::OutOfMemory);
    };
    count.lines += 1;
    match carry_out(opened, &said, &mut count.edits, writer) {
        Ok(()) => Ok(()),
        Err(_) => Err(RunCause::Write),
    }
}
