//! Tests of texts that are archived inline.
use super::is_archived_as;

#[test]
fn text_of_at_most_eight_bytes_is_written_inline(rt: HostRuntime) {
    let alloc = rt.alloc();
    let Ok(eight) = String::from_str(alloc, "12345678") else {
        panic!(rt; "no memory");
    };
    assert!(rt;
        is_archived_as(alloc, &eight, b"12345678")
            && is_archived_as(alloc, &String::new(alloc), &[0xff; 8])
    );
}
