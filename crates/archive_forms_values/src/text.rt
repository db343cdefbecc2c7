//! Archived texts: their check, their reading, their writing, and texts as keys.
//!
//! An archived text is eight bytes. How they are read is defined in archive_forms_laws.

mod check;
mod key;
mod laws;
mod query;
mod repr;
mod resolving;
mod string;

pub use archive_forms_laws::{held_is_text, one_text};
pub use check::check_behind;
pub use laws::out_of_line_capacity;
pub use query::TextQuery;
pub use repr::ArchivedStringRepr;
pub use resolving::StringResolver;
pub use string::ArchivedString;
pub(crate) use string::write_at;
