//! Archived options, results, boxes, vectors, arrays, texts and tuples: their layouts, their checks and the methods
//! that read them; and iterators over the entries of maps.
#![tactic(auto)]

mod boxed;
mod checking;
mod entries;
mod lending;
mod links;
mod reading;
mod text;
mod tuples;
mod words;

pub use boxed::{ArchivedBoxedSlice, ArchivedBoxedStr, check_boxed_slice_each};
pub use checking::{
    check_array_each, check_behind_each, check_box_each, check_elements_behind, check_option_each,
    check_result_each, check_slice_each, check_tuple1_each, check_tuple2_each, check_tuple3_each,
    check_tuple4_each, check_vec_each, field_end, greater, next_multiple,
};
pub use entries::{EntryIter, EntryKeys, EntryPositions, EntryValues};
pub use lending::{lend_entry, lend_own, visit_entry, visit_own};
pub use links::emplace_link;
pub use reading::{
    ArchivedBox, ArchivedOption, ArchivedResult, ArchivedVec, BoxResolver, Iter, SOME_TAG,
    SliceRef, SliceSeal, VecResolver, array_element, array_element_seal, array_slice, native_of,
    target_of,
};
pub use text::{
    ArchivedString, ArchivedStringRepr, StringResolver, TextQuery, check_behind, held_is_text,
    one_text, out_of_line_capacity,
};
pub use tuples::{ArchivedTuple1, ArchivedTuple2, ArchivedTuple3, ArchivedTuple4, Entry};
pub use words::{read_target, read_word};
