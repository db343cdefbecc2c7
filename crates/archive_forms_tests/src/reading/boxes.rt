//! Tests of the reading of boxes.
use super::checked::checked;
use archive_forms_values::ArchivedBox;
use archive_shape::{ArchivedU16, Seal};
use std::alloc::Global;

/// Returns the position of the value that the box at `pos` leads to.
fn value_position(alloc: Global, bytes: &[u8], pos: usize) -> Option<usize> {
    match checked::<ArchivedBox<ArchivedU16>>(alloc, bytes, pos) {
        Ok(boxed) => Some(ArchivedBox::get(boxed).pos()),
        Err(_) => None,
    }
}

/// Returns the position of the seal of that value, if the box is accepted.
fn seal_position(alloc: Global, bytes: &mut [u8], pos: usize) -> Option<usize> {
    if checked::<ArchivedBox<ArchivedU16>>(alloc, bytes, pos).is_err() {
        return None;
    }
    Some(ArchivedBox::<ArchivedU16>::get_seal(Seal::new(bytes, pos)).pos())
}

#[test]
fn value_of_a_box_stands_at_its_offset(rt: HostRuntime) {
    let mut bytes = *b"\x05\0..\x07\0..\xf8\xff\xff\xff";
    assert!(rt;
        value_position(rt.alloc(), &bytes, 8) == Some(0)
            && seal_position(rt.alloc(), &mut bytes, 8) == Some(0)
    );
}
