//! Reads paths of lines: whether bytes are a path, and its steps.
ghost use Rattle.std.specs.Prelude.{◌≡◌, All, IfOk, IfErr};
ghost use Rattle.std.specs.Bool.{OnTrue, OnFalse};
ghost use Rattle.cabinet_text_grammar.specs.Line.{IsStep, spelled_step, spelled_path};
ghost use Rattle.cabinet_text_nodes.specs.View.{step_of, path_of};
ghost use Rattle.cabinet_text_reading.specs.Calls.Paths.{ReadsStep, ReadsFirstStep, ReadsFirstKey};
ghost use Rattle.cabinet_text_reading.specs.Parts.{IsPath, IsSpelledStep, RefusesPath, RefusesStep, RefusesSteps, PlaceFits, lent_step};

use crate::lines::leaf::read_argument;
use cabinet_text_bytes::{after_prefix, is_escaped, read_count, split_word};
use cabinet_text_nodes::{LineRefusal, Step};
use std::alloc::Global;

/// A step that is borrowed from a line. The bytes of a key are not checked: they may be no escaped text.
#[derive(Clone, Copy)]
enum StepRef<'a> {
    Key(&'a [u8]),
    Place(u64),
    Inside,
}

/// Reads a word as a step.
fn read_step(word: &[u8]) -> Option<StepRef<'_>>
    ensures { ReadsStep word.now result }
{
    if word == b"?".as_slice() {
        return Some(StepRef::Inside);
    }
    if let Some(digits) = after_prefix(word, b"#".as_slice()) {
        let Some(place) = read_count(digits) else {
            return None;
        };
        return Some(StepRef::Place(place));
    }
    let Some(argument) = after_prefix(word, b"'".as_slice()) else {
        return None;
    };
    Some(StepRef::Key(argument))
}

/// Returns the first step of a path, and the bytes after it.
fn next_step(path: &[u8]) -> Option<(StepRef<'_>, &[u8])>
    ensures { ReadsFirstStep path.now result }
{
    let Some(spaced) = after_prefix(path, b" ".as_slice()) else {
        return None;
    };
    let (word, rest) = split_word(spaced);
    let Some(step) = read_step(word) else {
        return None;
    };
    Some((step, rest))
}

/// Returns the bytes of the key that a path begins with, and the bytes after it. Those of the key are not checked.
pub(crate) fn next_key(path: &[u8]) -> Option<(&[u8], &[u8])>
    ensures { ReadsFirstKey path.now result }
{
    let Some((step, rest)) = next_step(path) else {
        return None;
    };
    let StepRef::Key(argument) = step else {
        return None;
    };
    Some((argument, rest))
}

/// Returns whether a borrowed step is a step, which its key decides.
fn is_step(step: StepRef<'_>) -> bool
    requires { PlaceFits step }
    ensures yes { OnTrue result (IsSpelledStep (lent_step step.entry)) }
    ensures no { OnFalse result (IsSpelledStep (lent_step step.entry) → ⊥) }
{
    match step {
        StepRef::Key(argument) => is_escaped(argument),
        StepRef::Place(_) | StepRef::Inside => true,
    }
}

/// Returns whether bytes are a path.
pub(crate) fn is_path(bytes: &[u8]) -> bool
    ensures yes { OnTrue result (IsPath bytes.now) }
    ensures no { OnFalse result (IsPath bytes.now → ⊥) }
{
    let mut rest = bytes;
    while !rest.is_empty() {
        let Some((step, after)) = next_step(rest) else {
            return false;
        };
        if !is_step(step) {
            return false;
        }
        rest = after;
    }
    true
}

/// Returns an owned copy of a step. Only a key allocates memory.
fn own_step(alloc: Global, step: StepRef<'_>) -> Result<Step, LineRefusal>
    requires { PlaceFits step }
    ensures possible { IfOk result (λ s. IsStep (step_of s)) }
    ensures spelled { IfOk result (λ s. lent_step step.entry ≡ spelled_step (step_of s)) }
    ensures refused { IfErr result (RefusesStep (lent_step step.entry)) }
{
    match step {
        StepRef::Key(argument) => match read_argument(alloc, argument) {
            Ok(key) => Ok(Step::Key(key)),
            Err(refusal) => Err(refusal),
        },
        StepRef::Place(place) => Ok(Step::Place(place)),
        StepRef::Inside => Ok(Step::Inside),
    }
}

/// Reads bytes as a path. What follows a step for which memory is refused is not read.
fn read_steps(alloc: Global, bytes: &[u8]) -> Result<Vec<Step>, LineRefusal>
    ensures steps { IfOk result (λ path. All IsStep (path_of path.items)) }
    ensures spelled { IfOk result (λ path. bytes.now ≡ spelled_path (path_of path.items)) }
    ensures refused { IfErr result (RefusesSteps bytes.now) }
{
    let mut path = Vec::new(alloc);
    let mut rest = bytes;
    while !rest.is_empty() {
        let Some((step, after)) = next_step(rest) else {
            return Err(LineRefusal::Bad);
        };
        match own_step(alloc, step) {
            Ok(step) => match path.push(step) {
                Ok(()) => {}
                Err(_) => return Err(LineRefusal::OutOfMemory),
            },
            Err(refusal) => return Err(refusal),
        }
        rest = after;
    }
    Ok(path)
}

/// Reads bytes as a path. They are read a second time only where memory is refused, which is the refusal only if they
/// are a path.
pub(crate) fn read_path(alloc: Global, bytes: &[u8]) -> Result<Vec<Step>, LineRefusal>
    ensures steps { IfOk result (λ path. All IsStep (path_of path.items)) }
    ensures spelled { IfOk result (λ path. bytes.now ≡ spelled_path (path_of path.items)) }
    ensures refused { IfErr result (RefusesPath bytes.now) }
{
    match read_steps(alloc, bytes) {
        Ok(path) => Ok(path),
        Err(LineRefusal::Bad) => Err(LineRefusal::Bad),
        Err(LineRefusal::OutOfMemory) => {
            if is_path(bytes) {
                Err(LineRefusal::OutOfMemory)
            } else {
                Err(LineRefusal::Bad)
            }
        }
    }
}
