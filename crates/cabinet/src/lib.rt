//! Documents in archives: saving them, opening them, questions about them, and edits in place.
#![tactic(auto)]

pub mod calls;
mod editing;
mod fault;
pub mod laws;
mod opened;
mod refusals;
mod session;
mod showing;
mod working;

pub use archive_hash_probing::{Group, Group1, Group8, Group16, Scan};
pub use archive_shape::Steps;
pub use cabinet_archives::{
    ArchivedNode, OpenRefusal, SaveRefusal, check, check_scanned, load, save, to_bytes,
};
pub use cabinet_text::{Count, RunCause, RunFault, Source, SourceFailed, read_edit_line};
pub use cabinet_text_grammar::Cause;
pub use cabinet_text_nodes::{
    Asked, Document, DocumentRefusal, EditAnswer, EditLine, Kind, Leaf, LeafRef, Line, LineRefusal,
    Node, Step, write_text,
};
pub use cabinet_text_reading::{TextRefusal, read_line, read_text};
pub use editing::{EditedArchive, edit_in};
pub use fault::{Fault, fault_line};
pub use opened::{Opened, open, open_scanned};
pub use session::run;
pub use showing::write_document;
pub use working::{Worked, run_in, work};
