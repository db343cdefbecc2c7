//! Setting leaves of documents in the bytes of their archives.

mod putting;
mod setting;

pub use setting::set;
