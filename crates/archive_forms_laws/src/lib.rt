//! The definitions and laws of archived forms: where a text has its bytes, how a value is written, how values compare.
//!
//! Each function has an empty body, and its contract is a law.
#![tactic(auto)]

mod layout;
mod ordering;
mod spelling;

pub use layout::{held_is_text, one_text};
pub use ordering::{
    equal_values_are_hashed_alike, equalities_are_equivalences, orders_agree, orders_are_total,
};
pub use spelling::{
    keyed_lists_are_written, leaf_spells, one_present_is_written, optional_lists_are_written,
    pairs_are_written, texts_are_written, two_shared_is_written, written_once,
};
