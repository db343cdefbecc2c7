//! Documents as plain values: their texts, lines about them, answers and edits.
#![tactic(auto)]

mod answering;
pub mod laws;
mod session;
mod source;

pub use answering::answer;
pub use cabinet_text_grammar::Cause;
pub use cabinet_text_nodes::{
    Asked, Document, DocumentRefusal, EditAnswer, EditLine, Kind, Leaf, LeafRef, Line, LineRefusal,
    Node, Step, write_text,
};
pub use cabinet_text_reading::{TextRefusal, read_edit_line, read_line, read_text};
pub use session::{Count, LineReader, RunCause, RunFault, edit_document};
pub use source::{Source, SourceFailed};
