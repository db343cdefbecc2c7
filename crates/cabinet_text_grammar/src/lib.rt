//! Documents and their texts: definitions, and laws for other crates to cite.
#![tactic(auto)]

mod examples;
mod keys;
mod texts;

pub use examples::{
    answers_in_wholes, count_with_a_leading_zero, edited_text, edits, empty_range, equal_wholes,
    hashed_keys_that_descend, head_in_place_of_a_key, heads_of_the_kinds, kept_key_twice,
    key_in_place_of_a_head, key_with_a_raw_space, keys_of_the_kinds, last_line_without_a_newline,
    line_after_a_document, list_of_eight, list_without_its_second_element, map_of_four,
    map_without_its_second_pair, missing_nodes, no_wholes, option_without_its_node,
    ordered_key_twice, range_between_keys, range_in_the_middle, reversed_range, sixty_five_options,
    some_with_an_argument, unused_whole, whole_in_itself, whole_twice, whole_without_wholes,
    wholes_on_a_later_line, wholes_out_of_order,
};
pub use keys::{key_has_text, text_has_key};
pub use texts::{read_back, text_or_fault};

mod cause;
mod depth;
mod laws;
mod restructuring;

pub use cause::Cause;
pub use depth::MAX_DEPTH;
pub use laws::{
    change_keeps_document, fault_refuses, map_answers_its_pairs, one_document, one_edit_line,
    one_fault, one_line, only_done_changes, text_without_wholes,
};
pub use restructuring::{
    elements, insert_keeps_document, insert_moves_elements, lines_that_edit, new_keys, options,
    put_keeps_document, put_leads_to_new, remove_keeps_document, remove_moves_elements,
};
