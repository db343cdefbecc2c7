//! Archived forms: how values are written, checked, read in place, compared, and read back as owned values.
#![tactic(auto)]

mod alike;
mod deserializing;

pub use deserializing::{
    Deserialize, DeserializeUnsized, Deserializer, Keeps, ReadBack, ReadBehind, SharedPool,
    deserialize_array_each, deserialize_box_each, deserialize_boxed_slice_each,
    deserialize_element, deserialize_elements_each, deserialize_option_each, deserialize_rc_each,
    deserialize_rc_slice_each, deserialize_rc_str, deserialize_rc_weak_each,
    deserialize_rc_weak_slice_each, deserialize_rc_weak_str, deserialize_result_each,
    deserialize_tuple1_each, deserialize_tuple2_each, deserialize_tuple3_each,
    deserialize_tuple4_each, deserialize_vec_each,
};

pub mod collections;
pub mod laws;

pub use archive_forms_comparing::{
    ArchivedDebug, ArchivedEq, ArchivedHash, ArchivedOrd, ComparedNative,
};
pub use archive_forms_rc::{
    Acyclic, ArchivedRc, ArchivedRcSlice, ArchivedRcStr, ArchivedRcWeak, ArchivedRcWeakSlice,
    ArchivedRcWeakStr, Flavor, RcFlavor, RcResolver, RcWeakResolver, Shared, SharedWeak,
    SharingExt, check_rc_each, check_rc_slice_each, check_rc_str, check_rc_weak_each,
    check_rc_weak_slice_each, check_rc_weak_str, serialize_rc_from_ref,
};
pub use archive_forms_values::{
    ArchivedBox, ArchivedBoxedSlice, ArchivedBoxedStr, ArchivedOption, ArchivedResult,
    ArchivedString, ArchivedStringRepr, ArchivedTuple1, ArchivedTuple2, ArchivedTuple3,
    ArchivedTuple4, ArchivedVec, BoxResolver, Entry, Iter, SliceRef, SliceSeal, StringResolver,
    TextQuery, VecResolver, array_element, array_element_seal, array_slice, check_array_each,
    check_box_each, check_boxed_slice_each, check_option_each, check_result_each, check_slice_each,
    check_tuple1_each, check_tuple2_each, check_tuple3_each, check_tuple4_each, check_vec_each,
    native_of,
};
pub use archive_forms_writing::{
    Archive, ArchiveUnsized, EntryAdapter, EntryParts, EntryResolver, EntryStep, KeyOf, Leaf,
    OrderedKeyOf, Serialize, SerializeEntry, SerializeUnsized, align, pad, resolve_aligned,
    resolve_field, resolve_from_ref, resolve_from_slice, serialize_array_each, serialize_box_each,
    serialize_boxed_slice_each, serialize_entry_each, serialize_from_iter,
    serialize_from_iter_each, serialize_from_ref, serialize_from_slice, serialize_from_str,
    serialize_one_each, serialize_option_each, serialize_result_each, serialize_slice_each,
    serialize_str, serialize_tuple1_each, serialize_tuple2_each, serialize_tuple3_each,
    serialize_tuple4_each, serialize_using, serialize_vec_each,
};
