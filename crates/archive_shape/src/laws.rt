//! The laws of all modules of `archive_shape`, each a function with an empty body whose contract is the law.
ghost use Rattle.archive_shape.specs.Key.{AreAlike};

use crate::ArchivedKey;
pub use crate::checking::{accepted_is_answered, deep_child_is_refused, fault_refuses, one_fault};
pub use crate::references::{extent_is_claimed, overwrite_spares, sealed_leaf, sealed_text};
pub use crate::types::{
    held_leaf_is_read, illegal_is_refused, leaf_is_read, legal_is_readable, named_is_known,
};
pub use archive_shape_layout::{
    alignments_are_small_powers, ascent_is_apart, ascent_splits, edit_of_leaf, edit_of_text, frame,
    leaf_in_one_region, leaf_within, leaves_apart, one_value, paths_join, root_is_found,
    root_regions, value_at_path, visits_stand,
};

/// The comparison of a key depends on its value alone: two keys of one value, at any positions, compare alike with
/// every query.
pub fn keys_of_one_value_are_alike<Q, K: ArchivedKey<Q>>()
    ensures { AreAlike K.shape K.knows K.key_of K.order }
{}
