//! Carries out the lines of a source in a document.
ghost use Rattle.std.specs.Prelude.{◌≡◌, ◌-◌, ◌^◌, ◌<◌, ◌≤◌, option_map, IsTrue, IsSome, IfSome, IfOk, OnErr};
ghost use Rattle.archive_shape_layout.specs.Writing.{Writes};
ghost use Rattle.cabinet_text_grammar.specs.Answering.{spelled_answer};
ghost use Rattle.cabinet_text_grammar.specs.EditLine.{SaysEdit, IsPossibleEdit};
ghost use Rattle.cabinet_text_nodes.specs.View.{edit_line_of};
ghost use Rattle.cabinet_text_reading.specs.Reading.{RefusesEditLine};
ghost use Rattle.cabinet_text.specs.Calls.{IsReply, answer_by, Edits, AnswersLine, ReaderEndsRun, WriterEndsRun};
ghost use Rattle.cabinet_text.specs.Session.{edit_lines, one_if_done};
ghost use Rattle.cabinet_text.specs.Working.{WorksAsDocument, LeftByRun};

use crate::answering::answer;
use crate::session::lines::LineReader;
use crate::session::{Count, RunCause, RunFault};
use crate::source::Source;
use archive_shape_layout::{Error, Writer};
use cabinet_text_nodes::{
    Document, EditAnswer, EditLine, Line, LineRefusal, write_bad, write_outcome,
};
use cabinet_text_reading::read_edit_line;
use std::alloc::{AllocError, Global};

/// Returns the line that bytes say, or `None` if they are no line.
fn read_said(alloc: Global, bytes: &[u8]) -> Result<Option<EditLine>, AllocError>
    ensures said { IfOk result (λ line. SaysEdit bytes.now (option_map edit_line_of line)) }
    ensures memory { OnErr result (RefusesEditLine bytes.now LineRefusal.OutOfMemory) }
{
    match read_edit_line(alloc, bytes) {
        Ok(line) => Ok(Some(line)),
        Err(LineRefusal::Bad) => Ok(None),
        Err(LineRefusal::OutOfMemory) => Err(AllocError),
    }
}

/// The reply to a line: what is to be written as its answer.
#[derive(Drop)]
enum Reply {
    /// The bytes are no line.
    Bad,
    /// The answer of the document to a question.
    Question(Line),
    /// The outcome of an edit that was carried out.
    Edit(EditAnswer),
}

impl Reply {
    /// Returns the number of edits that were done.
    fn edits(&self, document: &Document) -> u64
        requires { IsReply self.now }
        ensures { result ≡ one_if_done (answer_by document.now self.now) }
    {
        match self {
            Reply::Bad | Reply::Edit(EditAnswer::Missing | EditAnswer::Refused) => 0,
            Reply::Question(_) => 0,
            Reply::Edit(EditAnswer::Done) => 1,
        }
    }

    /// Writes the answer of a document.
    fn write<W: Writer>(&self, document: &Document, writer: &mut W) -> Result<(), Error>
        requires reply { IsReply self.now }
        requires room { W.failures writer.old < 2 ^ 64 - 1 }
        ensures { Writes W.Writer writer.old writer.new (spelled_answer (answer_by document.now self.now)) result }
    {
        match self {
            Reply::Bad => write_bad(writer),
            Reply::Question(question) => match answer(document, question, writer) {
                Ok(_) => Ok(()),
                Err(error) => Err(error),
            },
            Reply::Edit(outcome) => write_outcome(*outcome, writer),
        }
    }
}

/// Carries out an edit, and returns what is to be written for a line. An `Err` says that an allocation for an edit failed, and
/// that nothing changed.
fn carry_out(
    alloc: Global,
    document: &mut Document,
    said: Option<EditLine>,
) -> Result<Reply, AllocError>
    requires { IfSome said (λ line. IsPossibleEdit (edit_line_of line)) }
    ensures reply { IfOk result IsReply }
    ensures edited { Edits (option_map edit_line_of said) result document.old document.new }
    ensures memory { OnErr result (IsSome said) }
{
    match said {
        None => Ok(Reply::Bad),
        Some(EditLine::About(Line::Set { path, leaf })) => {
            Ok(Reply::Edit(document.change(path.as_slice(), &leaf)))
        }
        Some(EditLine::About(question)) => Ok(Reply::Question(question)),
        Some(EditLine::Put { path, node }) => {
            let new = Document::of_parts(None, node);
            Ok(Reply::Edit(document.put(alloc, path.as_slice(), new)?))
        }
        Some(EditLine::Insert { path, node }) => {
            let new = Document::of_parts(None, node);
            Ok(Reply::Edit(document.insert(path.as_slice(), new)?))
        }
        Some(EditLine::Remove(path)) => Ok(Reply::Edit(document.remove(path.as_slice()))),
    }
}

/// Reads a line, carries it out and writes the answer.
fn answer_line<W: Writer>(
    alloc: Global,
    document: &mut Document,
    bytes: &[u8],
    count: &mut Count,
    writer: &mut W,
) -> Result<(), RunCause>
    requires room { W.failures writer.old < 2 ^ 64 - 1 }
    requires lines_fit { count.old.lines < 2 ^ 64 - 1 }
    requires edits_within { count.old.edits ≤ count.old.lines }
    ensures edits_within { count.new.edits ≤ count.new.lines }
    ensures answered { AnswersLine W.Writer bytes.now document.old document.new writer.old writer.new count.old count.new result }
{
    let Ok(said) = read_said(alloc, bytes) else {
        return Err(RunCause::OutOfMemory);
    };
    let Ok(reply) = carry_out(alloc, document, said) else {
        return Err(RunCause::OutOfMemory);
    };
    count.lines += 1;
    count.edits += reply.edits(document);
    match reply.write(document, writer) {
        Ok(()) => Ok(()),
        Err(_) => Err(RunCause::Write),
    }
}

/// Carries out the lines of a source in a document, and writes the answer to each. Allocates for a line that does not lie
/// whole in the bytes of one read, for the path and the text of a line, and for what is put or inserted.
pub fn edit_document<R: Source, W: Writer>(
    alloc: Global,
    document: &mut Document,
    reader: &mut R,
    writer: &mut W,
) -> Result<Count, RunFault>
    requires reader_counts { R.failures reader.old < 2 ^ 64 - 1 }
    requires writer_counts { W.failures writer.old < 2 ^ 64 - 1 }
    ensures works { IsTrue R.OBSERVABLE → IsTrue W.OBSERVABLE
        → WorksAsDocument edit_lines (λ t. document.new ≡ t) W.COUNTS document.old (R.left reader.old) (R.left reader.new)
        (W.contents writer.old) (W.contents writer.new) result }
    // Regardless of whether reader and writer are observable.
    ensures edits { LeftByRun edit_lines (λ t. document.new ≡ t) document.old result }
    ensures reader_fails { ReaderEndsRun R.Source reader.old reader.new result }
    ensures writer_fails { WriterEndsRun W.Writer writer.old writer.new result }
{
    let mut lines = LineReader::new(alloc);
    let mut count = Count { lines: 0, edits: 0 };
    loop {
        match lines.advance(reader) {
            Ok(true) => {}
            Ok(false) => return Ok(count),
            Err(cause) => return Err(RunFault::after(count, cause)),
        }
        match answer_line(alloc, document, lines.line(), &mut count, writer) {
            Ok(()) => {}
            Err(cause) => return Err(RunFault::after(count, cause)),
        }
    }
}
