//! Reads heads of nodes from their lines.
ghost use Rattle.std.specs.Prelude.{◌≡◌, ◌≢◌, ◌++◌, IsUtf8, IfOk, IfErr, string_bytes};
ghost use Rattle.std.specs.Fmt.{decimal};
ghost use Rattle.std.specs.Rc.{rc_str_bytes};
ghost use Rattle.cabinet_text_grammar.specs.declared.cause.Cause.TheVariants.{OutOfMemory};
ghost use Rattle.cabinet_text_grammar.specs.Spelling.{escaped, spelled};
ghost use Rattle.cabinet_text_nodes.specs.View.{item_of};
ghost use Rattle.cabinet_text_reading.specs.Calls.Heads.{FindsCount, ReadsOption, AllowsHead, RefusesHead, LacksMemoryForText};
ghost use Rattle.cabinet_text_reading.specs.Heads.{IsContainer, inner_depth, count_word, RefusesShared, RefusesText};

use cabinet_text_bytes::{after_prefix, read_count, read_number, read_truth, try_unescape};
use cabinet_text_grammar::{Cause, MAX_DEPTH};
use cabinet_text_nodes::{Head, Leaf, SharedTexts};
use std::alloc::Global;
use std::rc::RcStr;

/// The containers whose heads have a number: a count, or the number of a whole.
#[derive(Clone, Copy)]
enum Counted {
    List,
    Ordered,
    Hashed,
    Kept,
    Whole,
}

/// Reads the text that an argument is the escaped form of. `BadEscape` if there is none; `OutOfMemory` if an allocation
/// fails.
fn read_escaped(alloc: Global, argument: &[u8]) -> Result<String, Cause>
    requires { IsUtf8 argument.now }
    ensures text { IfOk result (λ text. argument.now ≡ escaped (string_bytes text)) }
    ensures fault { IfErr result (RefusesText argument.now) }
{
    match try_unescape(alloc, argument) {
        Ok(Some(text)) => Ok(text),
        Ok(None) => Err(Cause::BadEscape),
        Err(_) => Err(Cause::OutOfMemory),
    }
}

/// Reads the shared text that an argument is the escaped form of. If the text was met before, the result shares its
/// memory. `BadEscape` if there is none; `OutOfMemory` if an allocation fails.
fn read_shared(alloc: Global, argument: &[u8], texts: &mut SharedTexts) -> Result<RcStr, Cause>
    requires { IsUtf8 argument.now }
    ensures text { IfOk result (λ text. argument.now ≡ escaped (rc_str_bytes text)) }
    ensures fault { IfErr result (RefusesShared argument.now) }
{
    let text = match read_escaped(alloc, argument) {
        Ok(text) => text,
        Err(cause) => return Err(cause),
    };
    match texts.share(alloc, text.as_str()) {
        Ok(shared) => Ok(shared),
        Err(_) => Err(Cause::OutOfMemory),
    }
}

/// Returns the container whose word a line begins with, and the bytes after the word.
fn count_argument(line: &[u8]) -> Option<(Counted, &[u8])>
    ensures { FindsCount line.now result }
{
    if let Some(digits) = after_prefix(line, b"list ".as_slice()) {
        return Some((Counted::List, digits));
    }
    if let Some(digits) = after_prefix(line, b"ordered ".as_slice()) {
        return Some((Counted::Ordered, digits));
    }
    if let Some(digits) = after_prefix(line, b"hashed ".as_slice()) {
        return Some((Counted::Hashed, digits));
    }
    if let Some(digits) = after_prefix(line, b"kept ".as_slice()) {
        return Some((Counted::Kept, digits));
    }
    if let Some(digits) = after_prefix(line, b"whole ".as_slice()) {
        return Some((Counted::Whole, digits));
    }
    None
}

/// Returns how deep containers are known to be nested inside a container, or `None` for a whole that is not complete.
/// `depths` are the depths of the complete wholes, by their numbers.
fn inner_depth(head: &Head, depths: &[usize]) -> Option<usize>
    ensures { result ≡ inner_depth depths.now (item_of head.now) }
{
    match head {
        Head::Whole(number) => depths.get(*number as usize).copied(),
        _ => Some(0),
    }
}

/// Returns the head of a container, if it is allowed inside `depth` containers. `UnknownWhole` for a whole that is not
/// complete; `TooDeep` if too many containers would be nested.
fn within(head: Head, depth: usize, depths: &[usize]) -> Result<Head, Cause>
    requires { IsContainer (item_of head) }
    ensures same { IfOk result (λ inner. item_of inner ≡ item_of head) }
    ensures head { AllowsHead depths.now depth result }
    ensures fault { RefusesHead depths.now depth (spelled (item_of head)) result }
    ensures memory { IfErr result (λ cause. cause ≢ OutOfMemory) }
{
    let Some(inner) = inner_depth(&head, depths) else {
        return Err(Cause::UnknownWhole);
    };
    if depth.saturating_add(inner) >= MAX_DEPTH {
        return Err(Cause::TooDeep);
    }
    Ok(head)
}

/// Returns the head of a container with a number.
fn head_of(container: Counted, count: u64) -> Head
    ensures container { IsContainer (item_of result) }
    ensures line { spelled (item_of result) ≡ count_word container ++ decimal count }
{
    match container {
        Counted::List => Head::List(count),
        Counted::Ordered => Head::Ordered(count),
        Counted::Hashed => Head::Hashed(count),
        Counted::Kept => Head::Kept(count),
        Counted::Whole => Head::Whole(count),
    }
}

/// Reads the head of a container from the bytes after its word.
fn read_counted(
    container: Counted,
    digits: &[u8],
    depth: usize,
    depths: &[usize],
) -> Result<Head, Cause>
    requires { IsUtf8 (count_word container ++ digits.now) }
    ensures head { AllowsHead depths.now depth result }
    ensures line { IfOk result (λ head. count_word container ++ digits.now ≡ spelled (item_of head)) }
    ensures fault { RefusesHead depths.now depth (count_word container ++ digits.now) result }
    ensures memory { IfErr result (λ cause. cause ≢ OutOfMemory) }
{
    let Some(count) = read_count(digits) else {
        return Err(Cause::BadNumber);
    };
    within(head_of(container, count), depth, depths)
}

/// Reads a line as the head of an option, `none` or `some`.
fn read_option(line: &[u8]) -> Option<Head>
    ensures { ReadsOption line.now result }
{
    if line == b"none".as_slice() {
        return Some(Head::None);
    }
    if line == b"some".as_slice() {
        return Some(Head::Some);
    }
    None
}

/// Reads a line as a head inside `depth` containers. `depths` are the depths of the complete wholes, by their numbers.
#[inline(always)]
pub(crate) fn read_head(
    alloc: Global,
    line: &str,
    depth: usize,
    depths: &[usize],
    texts: &mut SharedTexts,
) -> Result<Head, Cause>
    ensures head { AllowsHead depths.now depth result }
    ensures line { IfOk result (λ head. line.now ≡ spelled (item_of head)) }
    ensures fault { RefusesHead depths.now depth line.now result }
    ensures memory { IfErr result (LacksMemoryForText line.now) }
{
    let bytes = line.as_bytes();
    if let Some(argument) = after_prefix(bytes, b"text '".as_slice()) {
        let text = read_escaped(alloc, argument)?;
        return Ok(Head::Leaf(Leaf::Text(text)));
    }
    if let Some(argument) = after_prefix(bytes, b"shared '".as_slice()) {
        let text = read_shared(alloc, argument, texts)?;
        return Ok(Head::Shared(text));
    }
    if let Some(digits) = after_prefix(bytes, b"int ".as_slice()) {
        return match read_number(digits) {
            None => Err(Cause::BadNumber),
            Some(number) => Ok(Head::Leaf(Leaf::Int(number))),
        };
    }
    if let Some((container, digits)) = count_argument(bytes) {
        return read_counted(container, digits, depth, depths);
    }
    if let Some(value) = read_truth(bytes) {
        return Ok(Head::Leaf(Leaf::Bool(value)));
    }
    match read_option(bytes) {
        None => Err(Cause::UnknownHead),
        Some(head) => within(head, depth, depths),
    }
}
