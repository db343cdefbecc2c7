//! Archived values are compared in place, as their native values are.
//!
//! A value of an archived type is known by its position, so the functions take two `Ref`s. The orders and their laws
//! are those of archive_forms_laws. The module `hashing` hashes and prints archived values, which it takes apart in the
//! same way.
#![tactic(auto)]

mod hashing;

pub use hashing::{ArchivedDebug, ArchivedHash, fmt_elements, hash_elements};

mod array;
mod boxed;
mod boxed_slice;
mod boxed_str;
pub mod entry;
mod eq;
mod fields;
pub mod laws;
mod leaf;
mod native;
mod option;
mod ord;
mod parts;
mod result;
mod signed;
mod text;
pub mod tuple1;
pub mod tuple2;
pub mod tuple3;
pub mod tuple4;
mod unit;
mod unsigned;
mod vector;

pub use array::array_elements;
pub use boxed_slice::boxed_elements;
pub use boxed_str::boxed_text;
pub use eq::ArchivedEq;
pub use native::ComparedNative;
pub use ord::ArchivedOrd;
pub use parts::{box_value, option_value, result_outcome};
pub use text::text_at;
pub use vector::{compare_elements, element, equal_elements, vector_elements};
