//! Tests of strides, and of the places that scans of every width find.
use archive_hash_probing::{
    Group1, Group8, Group16, Scan, Strides, capacity_for_len, find, first_empty, write_controls,
};
use archive_shape::Error;

#[test]
fn strides_go_on_by_more_each_time(rt: HostRuntime) {
    let mut strides = Strides::new(5, 65);
    for place in [Some(5), Some(21), Some(53), Some(37), Some(69), None] {
        assert!(rt; strides.next() == place);
    }
}

#[test]
fn a_table_has_more_places_than_items_or_its_load_factor_is_refused(rt: HostRuntime) {
    let rows: [(usize, (usize, usize), Result<usize, Error>); 8] = [
        (0, (7, 8), Ok(0)),
        (1, (7, 8), Ok(2)),
        (15, (7, 8), Ok(17)),
        (215, (7, 8), Ok(245)),
        (215, (8, 8), Ok(216)),
        (1, (0, 8), Err(Error::InvalidLoadFactor)),
        (1, (9, 8), Err(Error::InvalidLoadFactor)),
        (3, (1, 4_294_967_296), Err(Error::LengthTooLarge)),
    ];
    for (len, load_factor, capacity) in rows {
        assert!(rt; capacity_for_len(len, load_factor) == capacity);
    }
}

/// The hashes of the texts `0` to `14`.
const HASHES: [u64; 15] = [
    0x5277_8cfa_d9b8_8bc3,
    0xd48e_edf2_0134_343c,
    0x1b5b_1d74_0bf1_b540,
    0x98ff_ffa6_fd69_7e90,
    0x3889_6cac_31c1_ffd5,
    0xb62e_4edf_2339_c925,
    0x043a_fa2d_3070_3fd5,
    0xa1a6_7eee_93e7_114a,
    0xa4d2_d881_c6c6_16f8,
    0x71ea_697e_5978_f406,
    0x3f01_fa7a_ec2b_d114,
    0xf0b1_9256_f7e8_cc2d,
    0xbdc9_2353_8a9b_a93b,
    0x8ae0_b450_1d4e_8649,
    0x8e0d_0de3_502d_8bf7,
];

const PLACES: [u32; 15] = [0, 12, 13, 11, 10, 9, 14, 4, 8, 1, 15, 2, 16, 3, 5];

/// Returns the controls of a table of these hashes, as a scan of one width writes them, the number of strides that all
/// items cost together, and the place that one more item would have; or none, if an item is not at its place or is not
/// found there.
#[tactic(auto, unfolding(archive_shape_layout::specs::Content::control_count, archive_shape_layout::specs::Bytes::align_up))]
fn written_by<S: Scan>() -> Option<([u8; 47], usize, usize)> {
    let mut controls = [0u8; 47];
    let mut places = [0u32; 15];
    write_controls::<S>(&mut controls, 17, &HASHES, &mut places);
    let mut strides = 0;
    let mut is_found = places == PLACES;
    for i in 0..15 {
        let place = PLACES[i] as usize;
        let found = find::<S, _>(&controls, 17, HASHES[i], &|other| other == place);
        is_found = is_found && found.place == Some(place);
        strides = usize::wrapping_add(strides, found.strides);
    }
    match first_empty::<S>(&controls, 17, 0) {
        Some(empty) if is_found => Some((controls, strides, empty)),
        _ => None,
    }
}

#[test]
fn every_width_writes_and_finds_alike(rt: HostRuntime) {
    let by_one = written_by::<Group1>();
    assert!(rt;
        by_one.is_some() && [written_by::<Group8>(), written_by::<Group16>()] == [by_one, by_one]
    );
}
