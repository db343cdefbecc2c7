//! Tests of the reading of texts.
use super::checked::checked;
use archive_forms_values::{ArchivedString, ArchivedStringRepr};

#[test]
fn lengths_of_texts(rt: HostRuntime) {
    let rows = [
        (*b"world\xff\xff\xff", 5),
        (*b"12345678", 8),
        ([0xff; 8], 0),
        (*b"\x8c\0\0\0\xf4\xff\xff\xff", 12),
        (*b"\xbf\0\0\0\xf4\xff\xff\xff", 63),
        (*b"\x80\x01\0\0\xf4\xff\xff\xff", 64),
        (*b"\xbf\xff\xff\xff\xf4\xff\xff\xff", 1_073_741_823),
    ];
    for (own, len) in rows {
        assert!(rt;
            ArchivedStringRepr::len(&own) == len && ArchivedStringRepr::is_empty(&own) == (len == 0)
        );
    }
    assert!(rt;
        ArchivedStringRepr::OUT_OF_LINE_CAPACITY == 1_073_741_823
            && ArchivedStringRepr::INLINE_CAPACITY == 8
    );
}

#[test]
fn first_bytes_of_texts(rt: HostRuntime) {
    let rows = [
        (0, true),
        (0x7f, true),
        (0x80, false),
        (0xbf, false),
        (0xc0, true),
        (0xff, true),
    ];
    for (first, inline) in rows {
        let own = [first, 0, 0, 0, 0, 0, 0, 0];
        assert!(rt; ArchivedStringRepr::is_inline(&own) == inline);
    }
}

#[test]
fn offsets_of_texts(rt: HostRuntime) {
    let rows = [
        (*b"\x8c\0\0\0\xec\xff\xff\xff", -20),
        (*b"\x8c\0\0\0\x08\0\0\0", 8),
        (*b"\x8c\0\0\0\0\0\0\x80", -2_147_483_648),
    ];
    for (own, offset) in rows {
        assert!(rt; ArchivedStringRepr::out_of_line_offset(&own) == offset);
    }
}

#[test]
fn text_out_of_line_is_read(rt: HostRuntime) {
    let bytes = b"\x8c\0\0\0\x08\0\0\0hello world!........\x8c\0\0\0\xec\xff\xff\xff";
    for pos in [0, 28] {
        let Ok(hello) = checked(rt.alloc(), bytes, pos) else {
            panic!(rt; "refused");
        };
        assert!(rt;
            ArchivedString::as_str(hello) == "hello world!"
                && ArchivedString::as_bytes(hello) == "hello world!".as_bytes()
                && ArchivedString::len(hello) == 12
                && !ArchivedString::is_empty(hello)
        );
    }
}
