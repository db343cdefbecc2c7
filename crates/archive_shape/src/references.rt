//! References to values in a buffer, the types that pointers may lead to, and the places that values are written to.

mod dynamically_sized;
mod laws;
mod layout_raw;
mod own_seal;
mod place;
mod pointee;
mod refs;
mod seal;

pub use dynamically_sized::{Slice, Str};
pub use laws::{extent_is_claimed, overwrite_spares, sealed_leaf, sealed_text};
pub use layout_raw::LayoutRaw;
pub use own_seal::OwnSeal;
pub use place::Place;
pub use pointee::{ArchivePointee, Metadata};
pub use refs::Ref;
pub use seal::Seal;
