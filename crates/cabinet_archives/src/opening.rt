//! Opening bytes as the archive of a document.

mod audit;
mod opening;
mod refusal;

pub use opening::{check, check_scanned};
pub use refusal::OpenRefusal;
