//! Saving documents as archives.

mod saving;

pub use saving::{SaveRefusal, save, to_bytes};
