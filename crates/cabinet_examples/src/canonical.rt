//! Worked archives whose bytes are written out: which are the one archive of what they hold and which are not, and what
//! some of them store in fields of a limited width.

mod canonical_archives;
mod spoilt_archives;
mod stored_fields;

pub use canonical_archives::{
    empty_kept_map_is_canonical, empty_list_is_canonical, empty_ordered_map_is_canonical,
    empty_shared_text_twice_is_canonical, hash_of_a, hash_of_the_empty_text,
    hashed_map_of_one_is_canonical, hashed_map_of_two_is_canonical, kept_map_of_two_is_canonical,
    list_in_a_map_in_a_map_is_canonical, long_text_is_canonical, nothing_is_canonical,
    number_is_canonical, ordered_map_of_five_is_canonical, ordered_map_of_six_is_canonical,
    ordered_map_of_two_is_canonical, shared_text_twice_is_canonical, short_text_is_canonical,
    some_number_is_canonical, truth_is_canonical, whole_twice_is_canonical,
};
pub use spoilt_archives::{
    byte_behind_the_root, capacity_greater_than_needed, capacity_without_entries,
    empty_bucket_that_is_not_zero, empty_control_that_is_not_ff, filler_of_a_text_that_is_not_ff,
    gap_before_a_box, gap_before_the_root, kept_map_that_is_not_by_first_fit,
    offset_without_entries, padding_that_is_not_zero, shared_text_that_stands_twice,
    table_that_is_not_by_first_fit, tag_of_another_key, tree_higher_than_its_entries_need,
    tree_that_is_not_filled_from_the_left, unused_slot_that_is_not_zero,
};
pub use stored_fields::{fields_of_a_shared_text, fields_of_a_text, fields_of_nested_maps};
