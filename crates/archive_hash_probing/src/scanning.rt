//! The hash of a key, and scans of several controls of a table at a time.

mod bitmask;
mod hashing;
mod laws;
mod scan;
mod stride;
mod word;

pub use bitmask::{Bitmask, NonZeroWord, Word};
pub use hashing::{FxHasher64, hash_text, hash_value, tag_of};
pub use laws::width_is_that_of_group;
pub use scan::{Group, Group1, Group8, Group16, MAX_GROUP_WIDTH, Scan, WIDTH};
pub use stride::{stride_empties, stride_matches};
