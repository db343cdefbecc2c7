//! What `cab_show` does: its words, the text or the map that it prints, and the lines that report its faults.

mod archive;
mod command;
mod reporting;

pub use archive::{map_archive, show_archive};
pub use command::{ShowCommand, parse_show};
pub use reporting::report;
pub(crate) use reporting::report_with;
