//! Tests of archived chars, by their codes.
use archive_shape::{ArchivedChar, ArchivedLeaf};

#[test]
fn chars_by_their_codes(rt: HostRuntime) {
    let mut word = [0u8; 4];
    ArchivedChar::store('é', &mut word);
    let wave = [0x4b, 0xf4, 1, 0];
    assert!(rt; ArchivedChar::accepts(&wave));
    assert!(rt; word == [0xe9, 0, 0, 0] && ArchivedChar::read(&wave) == '\u{1f44b}');
    // The codes from d800 to dfff, and those from 110000 on, are not codes of chars.
    let rows = [
        ([0xff, 0xd7, 0, 0], true),
        ([0, 0xd8, 0, 0], false),
        ([0xff, 0xdf, 0, 0], false),
        ([0, 0xe0, 0, 0], true),
        ([0xff, 0xff, 0x10, 0], true),
        ([0, 0, 0x11, 0], false),
    ];
    for (own, is_char) in rows {
        assert!(rt; ArchivedChar::accepts(&own) == is_char);
    }
}
