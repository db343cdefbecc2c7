//! The calls that take memory.

use crate::archives::{checks, loads, makes_bytes, opens, saves};
use crate::plain::{answers, reads_lines, reads_text, writes_text};
use crate::sessions::{asks, runs, works};
use crate::tally::{Outcome, Tally};
use cabinet::{Group1, Group8, Group16};
use cabinet_doubles::Row;
use std::alloc::Global;

/// A call that takes memory, or whose writer does.
#[derive(Clone, Copy)]
enum Call {
    ReadText,
    WriteText,
    ReadLine,
    Answer,
    ToBytes,
    Save,
    Check1,
    Check8,
    Check16,
    Open1,
    Open8,
    Open16,
    Load,
    Ask,
    Run,
    Work,
}

/// All calls, in the order in which they are made.
const CALLS: [Call; 16] = [
    Call::ReadText,
    Call::WriteText,
    Call::ReadLine,
    Call::Answer,
    Call::ToBytes,
    Call::Save,
    Call::Check1,
    Call::Check8,
    Call::Check16,
    Call::Open1,
    Call::Open8,
    Call::Open16,
    Call::Load,
    Call::Ask,
    Call::Run,
    Call::Work,
];

impl Call {
    /// Makes the call with a document and its archive.
    fn make(self, alloc: Global, row: &Row<'_, '_>) -> Outcome {
        match self {
            Call::ReadText => reads_text(alloc, row),
            Call::WriteText => writes_text(alloc, row),
            Call::ReadLine => reads_lines(alloc, row),
            Call::Answer => answers(alloc, row),
            Call::ToBytes => makes_bytes(alloc, row),
            Call::Save => saves(alloc, row),
            Call::Check1 => checks::<Group1>(alloc, row),
            Call::Check8 => checks::<Group8>(alloc, row),
            Call::Check16 => checks::<Group16>(alloc, row),
            Call::Open1 => opens::<Group1>(alloc, row),
            Call::Open8 => opens::<Group8>(alloc, row),
            Call::Open16 => opens::<Group16>(alloc, row),
            Call::Load => loads(alloc, row),
            Call::Ask => asks(alloc, row),
            Call::Run => runs(alloc, row),
            Call::Work => works(alloc, row),
        }
    }
}

/// Makes each call with a document and its archive, and once more where memory was refused.
pub fn make_each(alloc: Global, row: &Row<'_, '_>) -> Tally {
    let mut tally = Tally::new();
    for call in CALLS {
        let outcome = call.make(alloc, row);
        tally.count(outcome);
        if outcome == Outcome::Refused {
            tally.count(call.make(alloc, row));
        }
    }
    tally
}
