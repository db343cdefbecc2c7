//! The types that maps and sets are archived with.
pub mod util;
