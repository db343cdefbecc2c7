//! Tests of the hashes of texts, and of the marks of scans.
use archive_hash_probing::{
    Bitmask, FxHasher64, Group, Group1, Group8, MAX_GROUP_WIDTH, Scan, WIDTH, hash_text,
    hash_value, tag_of,
};

#[test]
fn texts_hash_as_their_words(rt: HostRuntime) {
    let hashes = [
        hash_value::<&str, FxHasher64>(&"a"),
        hash_text("a"),
        hash_text(""),
    ];
    assert!(rt;
        hashes
            == [
                0xaa44_c3c5_b8e2_2aff,
                0xaa44_c3c5_b8e2_2aff,
                0x2b44_f56f_fae8_8a6b
            ]
            && tag_of(0xaa44_c3c5_b8e2_2aff) == 0x55
    );
}

const CONTROLS: [u8; 16] = [
    0x55, 0x54, 0xff, 0xff, 0xff, 0xff, 0xff, 0xff, 0xff, 0xff, 0xff, 0xff, 0xff, 0xff, 0xff, 0xff,
];

#[test]
fn eight_controls_may_be_marked_falsely_above_a_match(rt: HostRuntime) {
    let group = Group8::read(&CONTROLS, 0);
    let mut lanes = group.match_full();
    let marks = [
        group.match_byte(0x55).bits,
        group.match_empty().bits,
        lanes.bits,
    ];
    assert!(rt; lanes.any_bit_set() && marks == [0b11, 0b1111_1100, 0b11]);
    for lane in [Some(0), Some(1), None] {
        assert!(rt; lanes.next() == lane);
    }
}

#[test]
fn one_control_and_the_widest_scan_are_marked_exactly(rt: HostRuntime) {
    let group = Group::read(&CONTROLS, 0);
    let marks = [
        Group1::read(&CONTROLS, 0).match_byte(0x55).bits,
        group.match_byte(0x55).bits,
        group.match_empty().bits,
        group.match_full().bits,
    ];
    assert!(rt;
        marks == [1, 1, 0xfffc, 0b11]
            && Group1::read(&CONTROLS, 1).match_byte(0x55) == Bitmask::EMPTY
            && [WIDTH, MAX_GROUP_WIDTH] == [16, 16]
    );
}
