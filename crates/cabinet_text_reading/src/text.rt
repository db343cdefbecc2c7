//! Reads texts of documents: the result is the document with that text, or the first faulty line.
ghost use Rattle.std.specs.Prelude.{◌≡◌, ◌<◌, ◌≤◌, ◌+◌, ◌++◌, ◌∷◌, [], length, take, drop, IfOk, IfErr};
ghost use Rattle.cabinet_text_grammar.specs.Wholes.{wholes_of, IsDocument};
ghost use Rattle.cabinet_text_grammar.specs.Item.{document_items};
ghost use Rattle.cabinet_text_grammar.specs.Spelling.{text_of};
ghost use Rattle.cabinet_text_grammar.specs.Fault.{rank};
ghost use Rattle.cabinet_text_grammar.specs.Due.{nothing_more};
ghost use Rattle.cabinet_text_nodes.specs.View.{item_of};
ghost use Rattle.cabinet_text_reading.specs.Calls.Lines.{LacksDueLine};
ghost use Rattle.cabinet_text_reading.specs.Calls.Text.{TellsTextFault, TellsHeadFault, TakesHeadLine, RefusesHeadLine, TakesKeyLine, RefusesKeyLine, TakesDueLine, RefusesDueLine, BeginsWithoutCount, BeginsWithCount, text_and_rest, IsFirstFaultOf};
ghost use Rattle.cabinet_text_reading.specs.Causes.{a_line, next_piece, IsFaultAt};
ghost use Rattle.cabinet_text_reading.specs.Wholes.{table_in, tree_in, reading_of, number_of, AreKnown};

use crate::completed::check_tree;
use crate::head::read_head;
use crate::line::{Lines, read_key_argument};
use crate::stack::{Due, Frame, Next, OpenMap, all_lack_one, completes, take_head, take_key};
use crate::wholes::{Wholes, some_nodes};
use cabinet_text_bytes::{after_prefix, read_count};
use cabinet_text_grammar::Cause;
use cabinet_text_nodes::{Document, Head, Node, SharedTexts};
use std::alloc::Global;
use thiserror::Error;

/// The error of reading a text: the first faulty line, counted from 1, and its first cause.
#[derive(Clone, Copy, Debug, PartialEq, Eq, Error)]
#[error("line {line}: {cause}")]
pub struct TextRefusal {
    pub line: u64,
    pub cause: Cause,
}

/// Returns the number that a head tells, if it is that of a whole.
fn whole_number(head: &Head) -> Option<u64>
    ensures { result ≡ number_of (item_of head.now) }
{
    match head {
        Head::Whole(number) => Some(*number),
        _ => None,
    }
}

/// Returns the fault of the line of a text for which memory was refused: where the line completes a tree, what is asked
/// of the tree comes first.
fn fault_of_text(wholes: &Wholes<'_>, stack: &[Frame<'_>], lines: &[u8]) -> Cause
    ensures { TellsTextFault wholes.now stack.now lines.now result }
{
    if !all_lack_one(stack) {
        return Cause::OutOfMemory;
    }
    match check_tree(wholes, stack, None, lines) {
        Ok(()) => Cause::OutOfMemory,
        Err(cause) => cause,
    }
}

/// Returns the fault of the line of a head that was not read for this cause.
fn fault_of_head(cause: Cause, wholes: &Wholes<'_>, stack: &[Frame<'_>], lines: &[u8]) -> Cause
    ensures { TellsHeadFault cause wholes.now stack.now lines.now result }
{
    match cause {
        Cause::OutOfMemory => fault_of_text(wholes, stack, lines),
        _ => cause,
    }
}

/// Takes in the line of a node's head. `lines` are the lines of the tree that is read, up to this one.
#[inline(always)]
fn take_head_line<'a>(
    alloc: Global,
    line: &str,
    lines: &[u8],
    wholes: &Wholes<'_>,
    texts: &mut SharedTexts,
    stack: &mut Vec<Frame<'a>>,
) -> Result<Next<'a>, Cause>
    ensures taken { TakesHeadLine wholes.now stack.old line.now lines.now result stack.new }
    ensures fault { RefusesHeadLine wholes.now stack.old line.now lines.now result }
{
    let depth = stack.len() + wholes.around();
    let head = match read_head(alloc, line, depth, wholes.depths.as_slice(), texts) {
        Ok(head) => head,
        Err(cause) => return Err(fault_of_head(cause, wholes, stack.as_slice(), lines)),
    };
    if completes(&head, stack.as_slice()) {
        check_tree(wholes, stack.as_slice(), whole_number(&head), lines)?;
    }
    match take_head(alloc, head, stack) {
        Ok(next) => Ok(next),
        Err(_) => Err(Cause::OutOfMemory),
    }
}

/// Takes in the line of a key of a map.
#[inline(always)]
fn take_key_line<'a>(
    alloc: Global,
    line: &'a str,
    map: OpenMap<'a>,
    wholes: &Wholes<'_>,
    stack: &mut Vec<Frame<'a>>,
) -> Result<(), Cause>
    ensures taken { IfOk result (λ _. TakesKeyLine wholes.now map.entry stack.old line.now stack.new) }
    ensures fault { IfErr result (RefusesKeyLine wholes.now map.entry stack.old line.now) }
{
    let argument = read_key_argument(line)?;
    take_key(alloc, argument, map, stack)
}

/// Takes in a line of the kind that is expected. This function and what it calls are inlined: a map that is open would be
/// moved in and out of each call.
#[inline(always)]
fn take_line<'a>(
    alloc: Global,
    line: &'a str,
    lines: &[u8],
    due: Due<'a>,
    wholes: &Wholes<'_>,
    texts: &mut SharedTexts,
    stack: &mut Vec<Frame<'a>>,
) -> Result<Next<'a>, Cause>
    ensures taken { TakesDueLine wholes.now due.entry stack.old line.now lines.now result stack.new }
    ensures fault { RefusesDueLine wholes.now due.entry stack.old line.now lines.now result }
{
    match due {
        Due::Head => take_head_line(alloc, line, lines, wholes, texts, stack),
        Due::Key(map) => {
            take_key_line(alloc, line, map, wholes, stack)?;
            Ok(Next::Due(Due::Head))
        }
    }
}

/// Returns the next line, whose number is `line`, and the rest after it.
fn next_line<'a>(rest: Lines<'a>, line: u64) -> Result<(&'a str, Lines<'a>), TextRefusal>
    ensures piece { IfOk result (λ next. next_piece rest.entry ≡ a_line next.0.now) }
    ensures parts { IfOk result (λ next. rest.entry ≡ next.0.now ++ 10 ∷ next.1) }
    ensures line { IfErr result (λ refusal. refusal.line ≡ line) }
    ensures fault { IfErr result (λ refusal. LacksDueLine rest.entry refusal.cause) }
    ensures early { IfErr result (λ refusal. rank refusal.cause < 3) }
{
    match rest.next_line() {
        Ok(next) => Ok(next),
        Err(cause) => Err(TextRefusal { line, cause }),
    }
}

/// Reads the line of the number of wholes, if the text begins with one, and returns the number and the rest of the text.
fn read_header(text: &[u8]) -> Result<(u64, Lines<'_>), TextRefusal>
    ensures none { IfOk result (λ read. BeginsWithoutCount text.now read.0 read.1) }
    ensures some { IfOk result (λ read. BeginsWithCount text.now read.0 read.1) }
    ensures fault { IfErr result (IsFirstFaultOf text.now) }
{
    let lines = Lines::new(text);
    if after_prefix(text, b"wholes ".as_slice()).is_none() {
        return Ok((0, lines));
    }
    let (line, rest) = next_line(lines, 1)?;
    let count = match after_prefix(line.as_bytes(), b"wholes ".as_slice()) {
        Some(digits) => read_count(digits),
        None => None,
    };
    match count {
        Some(count) if count > 0 => Ok((count, rest)),
        _ => Err(TextRefusal {
            line: 1,
            cause: Cause::BadNumber,
        }),
    }
}

/// Returns the fault of what is left after a document, if anything is left. `line` is the number of the first line that is.
fn check_end(rest: Lines<'_>, line: u64) -> Result<(), TextRefusal>
    ensures end { IfOk result (λ _. rest.entry ≡ []) }
    ensures line { IfErr result (λ refusal. refusal.line ≡ line) }
    ensures fault { IfErr result (λ refusal. IsFaultAt nothing_more (next_piece rest.entry) refusal.cause) }
{
    match rest.fault_after() {
        None => Ok(()),
        Some(cause) => Err(TextRefusal { line, cause }),
    }
}

/// Returns the document with this root, if there is nothing after its text. `line` is the number of the line after the
/// text.
fn end_document(
    wholes: Wholes<'_>,
    root: Node,
    rest: Lines<'_>,
    line: u64,
) -> Result<Document, TextRefusal>
    requires document { IsDocument (tree_in wholes root) }
    requires wholes { wholes_of (tree_in wholes root) ≡ table_in wholes }
    requires line { line ≡ length (document_items (tree_in wholes root)) + 1 }
    ensures document { IfOk result (λ document. text_and_rest wholes.entry root rest.entry ≡ text_of document) }
    ensures fault { IfErr result (IsFirstFaultOf (text_and_rest wholes.entry root rest.entry)) }
{
    let document = Document::of_parts(some_nodes(wholes.entries), root);
    check_end(rest, line).and(Ok(document))
}

/// Returns the bytes of a text from `begin` up to `end`.
fn part(text: &[u8], begin: usize, end: usize) -> &[u8]
    requires begin { begin ≤ end }
    requires end { end ≤ length text.now }
    ensures { result.now ≡ drop begin (take end text.now) }
{
    &text[begin..end]
}

/// Reads the trees of the wholes, which are added to `wholes`, and that of the root from `rest`, the lines after that of
/// the number of wholes. Returns the root, and the rest after its lines with the number of the next one.
fn read_trees<'a>(
    alloc: Global,
    text: &'a [u8],
    count: u64,
    rest: Lines<'a>,
    wholes: &mut Wholes<'a>,
    texts: &mut SharedTexts,
    stack: &mut Vec<Frame<'a>>,
) -> Result<(Node, Lines<'a>, u64), TextRefusal>
    requires none { BeginsWithoutCount text.now count rest }
    requires some { BeginsWithCount text.now count rest }
    requires reading { reading_of wholes.old [] ≡ record { lacking = count; table = []; stack = [] } }
    requires known { AreKnown wholes.old }
    requires stack { stack.old.items ≡ [] }
    ensures document { IfOk result (λ read. IsDocument (tree_in wholes.new read.0)) }
    ensures wholes { IfOk result (λ read. wholes_of (tree_in wholes.new read.0) ≡ table_in wholes.new) }
    ensures line { IfOk result (λ read. read.2 ≡ length (document_items (tree_in wholes.new read.0)) + 1) }
    ensures text { IfOk result (λ read. text.now ≡ text_and_rest wholes.new read.0 read.1) }
    ensures fault { IfErr result (IsFirstFaultOf text.now) }
{
    let mut rest = rest;
    let mut next = Next::Due(Due::Head);
    let mut begin = text.len() - rest.len();
    let mut line: u64 = if count > 0 { 2 } else { 1 };
    loop {
        let due = match next {
            Next::Due(due) => due,
            Next::Done(root) => return Ok((root, rest, line)),
        };
        let (bytes, after) = next_line(rest, line)?;
        let lines = part(text, begin, text.len() - after.len());
        let taken = match take_line(alloc, bytes, lines, due, wholes, texts, stack) {
            Ok(taken) => taken,
            Err(cause) => return Err(TextRefusal { line, cause }),
        };
        next = match taken {
            Next::Due(due) => Next::Due(due),
            Next::Done(root) if wholes.lacking == 0 => Next::Done(root),
            Next::Done(tree) => {
                if wholes.add(tree, lines).is_err() {
                    let cause = Cause::OutOfMemory;
                    return Err(TextRefusal { line, cause });
                }
                stack.clear();
                begin = text.len() - after.len();
                Next::Due(Due::Head)
            }
        };
        rest = after;
        line += 1;
    }
}

/// Returns the document with this text. The time and the memory are in proportion to the text, except for the
/// comparisons of keys, of shared texts and of wholes. No memory is reserved by a count in the text.
pub fn read_text(alloc: Global, text: &[u8]) -> Result<Document, TextRefusal>
    ensures document { IfOk result (λ document. text.now ≡ text_of document) }
    ensures fault { IfErr result (IsFirstFaultOf text.now) }
{
    let (count, rest) = read_header(text)?;
    let mut wholes = Wholes::new(alloc, count);
    let mut texts = SharedTexts::new(alloc);
    let mut stack = Vec::new(alloc);
    match read_trees(
        alloc,
        text,
        count,
        rest,
        &mut wholes,
        &mut texts,
        &mut stack,
    ) {
        Ok((root, rest, line)) => end_document(wholes, root, rest, line),
        Err(refusal) => Err(refusal),
    }
}
