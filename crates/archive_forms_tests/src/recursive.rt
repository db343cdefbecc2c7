//! A type that holds itself, and tests of it. The definition of its layout names the type, so that this is no test code.
#[cfg(test)]
mod checking;
pub mod list;
#[cfg(test)]
mod reading_back;
