//! The places of a table: those searched for a hash, the one of an item that is found, and those where items are
//! inserted.

mod fitting;
mod laws;
mod search;
mod strides;

pub use fitting::{capacity_for_len, first_empty, insert, write_controls};
pub use laws::{
    counts_to_the_place, every_place_is_shown, few_strides, find_in_written, one_answer,
};
pub use search::{Found, find};
pub use strides::Strides;
