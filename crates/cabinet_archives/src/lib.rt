//! Documents in archives: saving, opening and loading them, questions about them, and edits in place.
#![tactic(auto)]

mod asking;
mod leaf;
mod loading;
mod mapping;
mod maps;
mod opening;
mod saving;
mod setting;

pub use asking::{ask, find, find_counted, head, locate};
pub use cabinet_archived::ArchivedNode;
pub use loading::load;
pub use mapping::{map_lists_regions, write_map};
pub use opening::{OpenRefusal, check, check_scanned};
pub use saving::{SaveRefusal, save, to_bytes};
pub use setting::set;
