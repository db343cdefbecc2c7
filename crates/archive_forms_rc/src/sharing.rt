//! The archiving of values that several pointers share: each is written at the first use of its key, and later pointers
//! with the key lead to it.

mod keyed;
mod sharing_ext;
mod weak;

pub use crate::RcResolver;
pub use keyed::Shared;
pub use sharing_ext::{SharingExt, serialize_rc_from_ref};
pub use weak::SharedWeak;
