//! The statuses of the calls, their codes, and which refusal or answer each status tells.
ghost use Rattle.std.specs.Prelude.{◌≡◌};
ghost use Rattle.cabinet_archives.specs.Refused.{refusal_of};
ghost use Rattle.cabinet_text_grammar.specs.Answering.{Answer};
ghost use Rattle.cabinet_text_nodes.specs.Answers.{Tells};
ghost use Rattle.cabinet_text_nodes.specs.Outcomes.{outcome_of};
ghost use Rattle.cabinet.specs.Codes.{code_of, status_of_answer, status_of_cause, status_of_refusal};

use cabinet_archives::OpenRefusal;
use cabinet_text_grammar::Cause;
use cabinet_text_nodes::{Asked, EditAnswer};

/// What a call tells. The header of `cabinet_c` has the same names and codes.
#[derive(Clone, Copy, Debug, PartialEq, Eq)]
pub enum Status {
    /// Done as asked.
    Ok = 0,
    /// A pointer is null. No call tells this: where C calls, its side tests the pointers.
    Null = 1,
    /// The bytes do not fit the buffer.
    Short = 2,
    OutOfMemory = 3,
    /// The bytes hold no node at their root.
    Access = 4,
    /// A container of the archive lies inside 64 others.
    TooDeep = 5,
    KeysNotAscending = 6,
    WrongTag = 7,
    NotFound = 8,
    /// The document is past the limits of archives.
    Limit = 9,
    /// The bytes are no line that the call takes.
    Bad = 10,
    /// The path leads nowhere.
    Missing = 11,
    /// The path leads to a node that has no keys in an order.
    Wrong = 12,
    /// The node there is no leaf of this kind, or a text of another length, or lies in a whole.
    Refused = 13,
    TextNotUtf8 = 14,
    TextNoNewline = 15,
    TextEndTooEarly = 16,
    TextKeyExpected = 17,
    TextBadEscape = 18,
    TextKeyOrder = 19,
    TextKeyRepeated = 20,
    TextUnknownHead = 21,
    TextBadNumber = 22,
    TextUnknownWhole = 23,
    TextTooDeep = 24,
    TextRepeatedWhole = 25,
    TextWholeOrder = 26,
    TextLineAfterEnd = 27,
}

impl Status {
    /// Returns the code that C sees.
    pub fn code(self) -> u32
        ensures { result ≡ code_of self }
    {
        self as u32
    }

    /// Returns the status of a refusal to open bytes.
    pub fn of_opening(refusal: OpenRefusal) -> Status
        ensures { result ≡ status_of_refusal (refusal_of refusal) }
    {
        match refusal {
            OpenRefusal::Access(_) => Status::Access,
            OpenRefusal::TooDeep => Status::TooDeep,
            OpenRefusal::KeysNotAscending => Status::KeysNotAscending,
            OpenRefusal::WrongTag => Status::WrongTag,
            OpenRefusal::NotFound => Status::NotFound,
            OpenRefusal::OutOfMemory => Status::OutOfMemory,
        }
    }

    /// Returns the status of the cause of a text's fault.
    pub fn of_cause(cause: Cause) -> Status
        ensures { result ≡ status_of_cause cause }
    {
        match cause {
            Cause::NotUtf8 => Status::TextNotUtf8,
            Cause::NoNewline => Status::TextNoNewline,
            Cause::EndTooEarly => Status::TextEndTooEarly,
            Cause::KeyExpected => Status::TextKeyExpected,
            Cause::BadEscape => Status::TextBadEscape,
            Cause::KeyOrder => Status::TextKeyOrder,
            Cause::KeyRepeated => Status::TextKeyRepeated,
            Cause::UnknownHead => Status::TextUnknownHead,
            Cause::BadNumber => Status::TextBadNumber,
            Cause::UnknownWhole => Status::TextUnknownWhole,
            Cause::TooDeep => Status::TextTooDeep,
            Cause::RepeatedWhole => Status::TextRepeatedWhole,
            Cause::WholeOrder => Status::TextWholeOrder,
            Cause::LineAfterEnd => Status::TextLineAfterEnd,
            Cause::OutOfMemory => Status::OutOfMemory,
        }
    }

    /// Returns the status of the outcome of a question.
    pub fn of_asked(asked: Asked) -> Status
        ensures { (a : Answer) → Tells asked a → result ≡ status_of_answer a }
    {
        match asked {
            Asked::Answered => Status::Ok,
            Asked::Missing => Status::Missing,
            Asked::Wrong => Status::Wrong,
        }
    }

    /// Returns the status of the outcome of an edit.
    pub fn of_outcome(outcome: EditAnswer) -> Status
        ensures { result ≡ status_of_answer (outcome_of outcome) }
    {
        match outcome {
            EditAnswer::Done => Status::Ok,
            EditAnswer::Missing => Status::Missing,
            EditAnswer::Refused => Status::Refused,
        }
    }
}
