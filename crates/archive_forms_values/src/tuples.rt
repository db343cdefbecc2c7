//! Archived tuples of one to four fields, and entries.

mod entry;
mod key;
mod tuple1;
mod tuple2;
mod tuple3;
mod tuple4;

pub use entry::Entry;
pub use tuple1::ArchivedTuple1;
pub use tuple2::ArchivedTuple2;
pub use tuple3::ArchivedTuple3;
pub use tuple4::ArchivedTuple4;
