//! The maps of archived documents.

mod hashed;
mod kept;
mod ordered;
mod pairs;

pub(crate) use hashed::{HashedMap, get_counted as get_hashed, hashed_sound};
pub(crate) use kept::{KeptMap, get_counted as get_kept, kept_sound};
pub(crate) use ordered::{
    OrderedEntries, OrderedMap, classify_entries, get_counted as get_ordered,
};
