//! The contexts of checks of archives, and the access to archives.
//!
//! An `ArchiveValidator` keeps the range of bytes that may still be claimed, and a `SharedValidator` the shared
//! positions that were visited. A `Validator` consists of one of each.
#![tactic(auto)]

mod accessing;
mod nesting;

pub use accessing::{
    access, access_mut, access_pos, access_pos_mut, access_pos_with_context, access_with_context,
    check_pos_with_context, root_position, unlimited_is_no_limit,
};
pub use nesting::nesting_is_bounded;

mod archive_validator;
mod context_ext;
mod shared_validator;
mod validator;

pub use archive_shape::{ArchiveContext, PushedRange, SharedContext, ValidationState};
pub use archive_validator::ArchiveValidator;
pub use context_ext::ArchiveContextExt;
pub use shared_validator::SharedValidator;
pub use validator::{HighValidator, Validator, Visited, Visits};
