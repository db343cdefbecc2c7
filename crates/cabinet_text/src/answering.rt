//! Answers questions about documents of ten kinds of nodes.

mod keys;
mod question;

pub use question::answer;
