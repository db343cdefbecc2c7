//! The native numbers and chars that have an archived form, and their bytes.

mod character;
mod native;
mod signed;
mod signed_nonzero;
mod unsigned;
mod unsigned_nonzero;

pub use native::Native;
