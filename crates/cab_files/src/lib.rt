//! What the programs on files of archives do: `cab` makes and edits an archive, `cab_show` prints one, and `cab_edit` edits one
//! so that its document may grow.
#![tactic(auto)]

mod arguments;
mod beside;
mod building;
mod carrying;
mod command;
mod editing;
mod ending;
mod input;
mod mapping;
mod output;
mod reading;
mod replacing;
mod running;
mod showing;

pub use arguments::words;
pub use cabinet::{Fault, fault_line};
pub use carrying::carry_out;
pub use command::{Command, parse};
pub use editing::{
    EditCommand, NewRoot, edit_archive_file, new_archive_file, parse_edit, report_edit,
};
pub use ending::exit_code;
pub use output::OutputStream;
pub use showing::{ShowCommand, map_archive, parse_show, report, show_archive};
