//! The map of an archive: a line for each region that its root claims, with what it is and the path to it, and a summary.

mod cut;
mod laws;
mod lines;
mod map;
mod nodes;
mod path;
mod region;
mod summary;
mod tally;
mod texts;

pub use laws::map_lists_regions;
pub use map::write_map;
