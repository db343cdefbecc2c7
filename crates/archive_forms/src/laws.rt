//! The laws of all parts of `archive_forms`. Each is a function with an empty body, whose contract is
//! the law. Those of the one archive of a value, which writing makes, are here too.
pub use crate::alike::{
    alike_forms_are_equal, alike_forms_are_one, alike_leaves_are_one,
    alike_nonzero_numbers_are_one, alike_texts_are_equal, alike_tuples_are_equal, one_is_equal,
};
pub use crate::deserializing::laws::{
    forms_are_faithful, leaves_are_faithful, texts_are_faithful, tuples_are_faithful,
};
pub use archive_forms_laws::{
    equal_values_are_hashed_alike, equalities_are_equivalences, held_is_text,
    keyed_lists_are_written, leaf_spells, one_present_is_written, one_text,
    optional_lists_are_written, orders_agree, orders_are_total, pairs_are_written,
    texts_are_written, two_shared_is_written, written_once,
};
pub use archive_forms_values::out_of_line_capacity;
pub use archive_shape_canonical::{
    avoiding_paths_join, canonical_edit_of_leaf, canonical_edit_of_text, canonical_frame,
    one_archive, tables_of_one_map, written_everywhere,
};
