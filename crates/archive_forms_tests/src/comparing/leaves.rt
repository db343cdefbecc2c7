//! Tests of how texts are compared.
use super::answers::compared_as;
use archive_forms_values::ArchivedString;
use std::cmp::Ordering;

#[test]
fn text_inline_before_a_longer_one_out_of_line(rt: HostRuntime) {
    let inline = (b"12345678".as_slice(), 0);
    let out_of_line = (b"123456789...\x89\0\0\0\xf4\xff\xff\xff".as_slice(), 12);
    assert!(rt;
        compared_as::<ArchivedString>(rt.alloc(), inline, out_of_line, false, Ordering::Less)
            && compared_as::<ArchivedString>(
                rt.alloc(),
                out_of_line,
                inline,
                false,
                Ordering::Greater
            )
    );
}
