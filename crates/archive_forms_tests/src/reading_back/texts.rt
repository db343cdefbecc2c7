//! Tests of texts that are read back from bytes.
use super::read_back;
use archive_forms_values::{ArchivedBoxedStr, ArchivedOption, ArchivedString};
use std::boxed::BoxedStr;

#[test]
fn text_out_of_line_is_read_back(rt: HostRuntime) {
    let bytes = b"123456789\0\0\0\x89\0\0\0\xf4\xff\xff\xff";
    let read = read_back::<String, ArchivedString>(rt.alloc(), bytes, 12, 1);
    assert!(rt; matches!(&read, Ok(text) if text.as_str() == "123456789"));
}

#[test]
fn text_of_an_option_is_read_back(rt: HostRuntime) {
    let bytes = b"\x01\0\0\0hello\xff\xff\xff";
    let read = read_back::<Option<String>, ArchivedOption<ArchivedString>>(rt.alloc(), bytes, 0, 0);
    assert!(rt; matches!(&read, Ok(Some(text)) if text.as_str() == "hello"));
}

#[test]
fn text_of_a_box_is_read_back(rt: HostRuntime) {
    let bytes = b"...hello\xfb\xff\xff\xff\x05\0\0\0";
    let read = read_back::<BoxedStr, ArchivedBoxedStr>(rt.alloc(), bytes, 8, 1);
    assert!(rt; matches!(&read, Ok(text) if text.as_str() == "hello"));
}
