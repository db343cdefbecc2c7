//! The types that keep shared values: the position at which each was written, and the result of each that was read.

mod exact;
mod pool;
mod pooling_ext;
mod share;
mod unpool;

pub use exact::{ExactClone, RcValue};
pub use pool::{HighDeserializer, Pool};
pub use pooling_ext::PoolingExt;
pub use share::Share;
pub use unpool::Unpool;
