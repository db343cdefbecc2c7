//! Reads texts: the result is the document with that text, or the first faulty line.
#![tactic(auto)]

mod lines;
mod stack;

pub use lines::{read_edit_line, read_line};
pub use stack::{
    AscendingKeyed, AscendingPairs, Due, Frame, KeptKeyed, KeptPairs, Keyed, Next, OpenMap, Pairs,
    cmp_escaped, take_head, take_key,
};

mod completed;
mod head;
mod line;
mod text;
mod wholes;

pub use text::{TextRefusal, read_text};
