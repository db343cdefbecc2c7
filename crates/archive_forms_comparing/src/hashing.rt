//! Archived values are hashed and printed in place, as their native values are.
//!
//! They are taken apart in the same way as in comparisons. What is hashed of each form is defined in
//! archive_forms_laws.

mod boxed;
mod debug;
mod entry;
mod hash;
mod leaf;
mod option;
mod result;
mod text;
mod tuple1;
mod tuple2;
mod tuple3;
mod tuple4;
mod unit;
mod vector;

pub use debug::{ArchivedDebug, fmt_elements};
pub use hash::ArchivedHash;
pub use vector::hash_elements;
