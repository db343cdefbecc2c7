//! Tests of the reading of tuples.
use super::checked::checked;
use archive_forms_values::ArchivedTuple4;
use archive_shape::{ArchivedU16, ArchivedU64};
use std::alloc::Global;

/// Returns the positions of the fields of the tuple at `pos`, or `None` if it is refused.
fn positions(alloc: Global, bytes: &[u8], pos: usize) -> Option<[usize; 4]> {
    match checked::<ArchivedTuple4<ArchivedU16, u8, ArchivedU64, bool>>(alloc, bytes, pos) {
        Ok(four) => Some([
            ArchivedTuple4::first(four).pos(),
            ArchivedTuple4::second(four).pos(),
            ArchivedTuple4::third(four).pos(),
            ArchivedTuple4::fourth(four).pos(),
        ]),
        Err(_) => None,
    }
}

#[test]
fn fields_of_a_tuple_of_four(rt: HostRuntime) {
    let bytes = b"\x03\0\x04\xff\xff\xff\xff\xff\x05\0\0\0\0\0\0\0\x01\xff\xff\xff\xff\xff\xff\xff";
    assert!(rt; positions(rt.alloc(), bytes, 0) == Some([0, 2, 8, 16]));
}
