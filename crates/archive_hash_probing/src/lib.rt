//! Hashes, groups of control bytes, the strides of a probe sequence, and first fit along them.
#![tactic(auto)]

mod keys;
mod places;
mod scanning;

pub use keys::hash_key;
pub use places::{
    Found, Strides, capacity_for_len, counts_to_the_place, every_place_is_shown, few_strides, find,
    find_in_written, first_empty, insert, one_answer, write_controls,
};
pub use scanning::{
    Bitmask, FxHasher64, Group, Group1, Group8, Group16, MAX_GROUP_WIDTH, NonZeroWord, Scan, WIDTH,
    Word, hash_text, hash_value, stride_empties, stride_matches, tag_of, width_is_that_of_group,
};
