//! Tests of tuples that are archived.
use super::is_archived_as;

#[test]
fn tuples_with_and_without_padding(rt: HostRuntime) {
    let four = (1u8, 0x0504_0302u32, 0x0706u16, 8u8);
    let three = (1u8, true, 0x0302i16);
    let one = (5u16,);
    let alloc = rt.alloc();
    assert!(rt;
        is_archived_as(alloc, &four, b"\x01\0\0\0\x02\x03\x04\x05\x06\x07\x08\0")
            && is_archived_as(alloc, &three, b"\x01\x01\x02\x03")
            && is_archived_as(alloc, &one, b"\x05\0")
    );
}

#[test]
fn a_tuple_of_a_text_and_a_vector_is_written_behind_their_data(rt: HostRuntime) {
    let alloc = rt.alloc();
    let Ok(text) = String::from_str(alloc, "hello world!") else {
        panic!(rt; "no memory");
    };
    let Ok(numbers) = vec![in alloc; 1u16, 2] else {
        panic!(rt; "no memory");
    };
    let bytes = *b"hello world!\x01\0\x02\0\x8c\0\0\0\xf0\xff\xff\xff\xf4\xff\xff\xff\x02\0\0\0";
    assert!(rt; is_archived_as(alloc, &(text, numbers), &bytes));
}
