//! The archiving of values: first the data of a value is written, and then its own bytes.
#![tactic(auto)]

mod archive;
mod array;
mod boxed;
mod boxed_slices;
mod buffered;
mod bytes;
mod elements;
mod fields;
mod key;
mod leaf;
mod option;
mod placing;
mod pointer_sized;
mod result;
mod string;
mod tuple1;
mod tuple2;
mod tuple3;
mod tuple4;
mod unit;
mod vector;

pub use archive::{Archive, ArchiveWith, ByArchive, Serialize};
pub use array::serialize_array_each;
pub use boxed::serialize_box_each;
pub use boxed_slices::{serialize_boxed_slice_each, serialize_str};
pub use bytes::serialize_using;
pub use elements::{
    serialize_element, serialize_one_each, serialize_slice_each, serialize_slice_with_each,
};
pub use fields::resolve_field;
pub use key::{KeyOf, OrderedKeyOf};
pub use leaf::Leaf;
pub use option::serialize_option_each;
pub use placing::{align, pad, resolve_aligned};
pub use result::serialize_result_each;
pub use string::serialize_from_str;
pub use tuple1::serialize_tuple1_each;
pub use tuple2::serialize_tuple2_each;
pub use tuple3::serialize_tuple3_each;
pub use tuple4::serialize_tuple4_each;
pub use vector::serialize_vec_each;

mod boxing;
mod collections;
mod steps;

pub use boxing::{ArchiveUnsized, SerializeUnsized, resolve_from_ref, serialize_from_ref};
pub use collections::{
    EntryAdapter, EntryResolver, collect_items, resolve_from_slice, serialize_entry_each,
    serialize_from_iter, serialize_from_iter_each, serialize_from_slice,
};
pub use steps::{EntryParts, EntryStep, SerializeEntry};
