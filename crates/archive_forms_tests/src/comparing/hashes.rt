//! Tests of what is hashed.
use super::answers::hashed_as;
use archive_forms_values::{ArchivedBoxedStr, ArchivedOption, ArchivedVec, Entry};

#[test]
fn vectors_texts_options_and_entries_as_native_values(rt: HostRuntime) {
    let alloc = rt.alloc();
    let bytes = b"\x01\x02..\xfc\xff\xff\xff\x02\0\0\0";
    let native: &[u8] = &[1, 2];
    assert!(rt; hashed_as::<ArchivedVec<u8>, &[u8]>(alloc, bytes, 4, &native));
    let bytes = b"...hello\xfb\xff\xff\xff\x05\0\0\0";
    assert!(rt; hashed_as::<ArchivedBoxedStr, &str>(alloc, bytes, 8, &"hello"));
    let none: Option<u8> = None;
    assert!(rt;
        hashed_as::<ArchivedOption<u8>, Option<u8>>(alloc, b"\0\x09", 0, &none)
            && hashed_as::<Entry<u8, bool>, (u8, bool)>(alloc, b"\x07\x01", 0, &(7, true))
    );
}
