//! Writing each shared text and each whole once.

mod node_share;
mod serializing;
mod text_share;

pub use node_share::NodeShare;
pub use serializing::NodeSharing;
