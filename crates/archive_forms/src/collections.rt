//! The types with which maps and sets are archived.
pub mod util;
