//! Tests of archived numbers.
use archive_shape::{
    ArchivedI16, ArchivedI128, ArchivedIsize, ArchivedLeaf, ArchivedNonZeroIsize,
    ArchivedNonZeroUsize, ArchivedU64, ArchivedU128, ArchivedUsize, LittleEndian,
};

#[test]
fn numbers_of_128_bits(rt: HostRuntime) {
    let mut signed = [0u8; 16];
    ArchivedI128::store(-2, &mut signed);
    let mut wide = [0u8; 16];
    ArchivedU128::store(0x0102_0000_0000_0000_0000_0000_0000_0003, &mut wide);
    assert!(rt;
        signed == *b"\xfe\xff\xff\xff\xff\xff\xff\xff\xff\xff\xff\xff\xff\xff\xff\xff"
            && wide == [3, 0, 0, 0, 0, 0, 0, 0, 0, 0, 0, 0, 0, 0, 2, 1]
    );
    assert!(rt;
        ArchivedI128::accepts(&signed)
            && ArchivedI128::read(&signed) == -2
            && ArchivedU128::read(&wide) == 0x0102_0000_0000_0000_0000_0000_0000_0003
    );
}

#[test]
fn numbers_are_read(rt: HostRuntime) {
    let minus_four = [0xfc, 0xff, 0xff, 0xff];
    assert!(rt;
        ArchivedI16::read(&[0xfe, 0xff]) == -2
            && ArchivedU64::read(&[1, 2, 0, 0, 0, 0, 0, 0]) == 0x0201
            && ArchivedUsize::read(&[1, 0, 0, 0]) == 1
            && ArchivedIsize::read(&minus_four) == -4
            && LittleEndian::from_native(5i64).to_native() == 5
            && ArchivedNonZeroUsize::read(&[1, 0, 0, 0]).get() == 1
            && ArchivedNonZeroIsize::read(&minus_four).get() == -4
    );
}
