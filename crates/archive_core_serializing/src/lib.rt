//! Writers and serializers: a serializer of three parts, a writer over borrowed memory, the methods of every writer,
//! and what keeps shared values.
#![tactic(auto)]

mod shares;

pub use shares::{ExactClone, HighDeserializer, Pool, PoolingExt, RcValue, Share, Unpool};

mod buffer;
mod serializer;
mod sharing;
mod writer_ext;

pub use buffer::Buffer;
pub use serializer::{HighSerializer, Serializer};
pub use sharing::pad_empty;
pub use writer_ext::WriterExt;
