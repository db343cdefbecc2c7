//! Tests of boxes of slices and of texts: the methods that read them.
use super::checked::{checked, position};
use archive_forms_values::{ArchivedBoxedSlice, ArchivedBoxedStr};
use archive_shape::ArchivedU16;
use std::alloc::Global;

/// Returns whether three elements of two bytes each stand at 0.
fn three_stand(alloc: Global, bytes: &[u8], pos: usize) -> bool {
    let Ok(three) = checked::<ArchivedBoxedSlice<ArchivedU16>>(alloc, bytes, pos) else {
        return false;
    };
    ArchivedBoxedSlice::len(three) == 3
        && position(ArchivedBoxedSlice::get(three).get(2)) == Some(4)
        && position(ArchivedBoxedSlice::get(three).get(3)) == None
}

#[test]
fn elements_of_a_box(rt: HostRuntime) {
    let bytes = b"\x05\0\x06\0\x07\0..\xf8\xff\xff\xff\x03\0\0\0";
    assert!(rt; three_stand(rt.alloc(), bytes, 8));
}

/// Returns whether the box at `pos` has this text.
fn is_text(alloc: Global, bytes: &[u8], pos: usize, text: &str) -> bool {
    match checked::<ArchivedBoxedStr>(alloc, bytes, pos) {
        Ok(found) => ArchivedBoxedStr::get(found) == text,
        Err(_) => false,
    }
}

#[test]
fn text_of_a_box(rt: HostRuntime) {
    let bytes = b"...hello\xfb\xff\xff\xff\x05\0\0\0";
    assert!(rt; is_text(rt.alloc(), bytes, 8, "hello"));
}
