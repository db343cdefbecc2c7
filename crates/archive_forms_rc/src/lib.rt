//! Counted pointers: archived pointers to a value that several pointers may share, their checks, and how they are
//! archived.
//!
//! Each is an offset of four bytes, followed by four bytes with the number of elements, or of bytes of the text, if it
//! leads to elements or to a text. What it leads to is claimed and checked only at the first visit of its position. A
//! context keeps the visited positions (archive_shape's specs/Kept).
#![tactic(auto)]

mod sharing;

pub use sharing::{Shared, SharedWeak, SharingExt, serialize_rc_from_ref};

mod comparing;
mod debug;
mod flavor;
mod hashing;
mod key;
pub mod laws;
mod parts;
mod resolving;
mod shared;
mod shared_slice;
mod shared_str;
mod visit;
mod weak;
mod weak_slice;
mod weak_str;

pub use flavor::{Acyclic, Flavor, RcFlavor};
pub use resolving::{RcResolver, RcWeakResolver};
pub use shared::{ArchivedRc, check_rc_each};
pub use shared_slice::{ArchivedRcSlice, check_rc_slice_each};
pub use shared_str::{ArchivedRcStr, check_rc_str};
pub use weak::{ArchivedRcWeak, check_rc_weak_each};
pub use weak_slice::{ArchivedRcWeakSlice, check_rc_weak_slice_each};
pub use weak_str::{ArchivedRcWeakStr, check_rc_weak_str};
