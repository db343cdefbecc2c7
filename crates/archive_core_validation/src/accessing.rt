//! Access to an archive: checks whether a buffer has a value at its root, or at another position, and returns
//! references to it.
//!
//! A buffer is accepted if it has a value at the position, and the regions of this value ascend over the whole buffer
//! with the value's own bytes as the last (specs/Access).

mod checked;
mod laws;
mod root;
mod whole;

pub use checked::{access_pos_with_context, access_with_context, check_pos_with_context};
pub use laws::unlimited_is_no_limit;
pub use root::root_position;
pub use whole::{access, access_mut, access_pos, access_pos_mut};
