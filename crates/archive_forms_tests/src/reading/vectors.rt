//! Tests of the reading of vectors.
use super::checked::{checked, position};
use archive_forms_values::ArchivedVec;
use archive_shape::ArchivedU16;
use std::alloc::Global;

/// Returns whether three elements of two bytes each stand at 0.
fn three_stand(alloc: Global, bytes: &[u8], pos: usize) -> bool {
    let Ok(vector) = checked::<ArchivedVec<ArchivedU16>>(alloc, bytes, pos) else {
        return false;
    };
    ArchivedVec::len(vector) == 3
        && ArchivedVec::as_slice(vector).len() == 3
        && position(ArchivedVec::get(vector, 0)) == Some(0)
        && position(ArchivedVec::get(vector, 2)) == Some(4)
        && position(ArchivedVec::get(vector, 3)) == None
}

#[test]
fn elements_stand_side_by_side(rt: HostRuntime) {
    let bytes = b"\x05\0\x06\0\x07\0..\xf8\xff\xff\xff\x03\0\0\0";
    assert!(rt; three_stand(rt.alloc(), bytes, 8));
}
