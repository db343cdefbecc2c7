//! What `cab_edit` does: its words, the archive that it edits or makes, and the lines that report its faults.

mod archive;
mod command;
mod new;
mod reporting;
mod session;

pub use archive::edit_archive_file;
pub use command::{EditCommand, NewRoot, parse_edit};
pub use new::new_archive_file;
pub use reporting::report_edit;
