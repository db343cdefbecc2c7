//! Loading the document that bytes are the archive of.

mod entries;
mod loading;
mod nodes;
mod texts;
mod wholes;

pub use loading::load;
