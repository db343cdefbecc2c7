//! Tests of values of one byte, whose archived type is their native type.
use archive_shape::ArchivedLeaf;
use std::num::NonZeroI8;
use std::test::Fail;

#[test]
fn numbers_and_truth_values_of_one_byte(rt: HostRuntime) {
    let mut unsigned = [0u8; 1];
    u8::store(200, &mut unsigned);
    let mut signed = [0u8; 1];
    i8::store(-1, &mut signed);
    let mut truth = [0u8; 1];
    bool::store(true, &mut truth);
    assert!(rt; unsigned == [200] && signed == [0xff] && truth == [1]);
    let accepted = (
        u8::accepts(&[200]),
        i8::accepts(&[200]),
        bool::accepts(&[1]),
    );
    assert!(rt; accepted == (true, true, true) && !bool::accepts(&[2]));
    let read = (
        u8::read(&[200]),
        i8::read(&[200]),
        bool::read(&[1]),
        bool::read(&[0]),
    );
    assert!(rt; read == (200, -56, true, false));
}

#[test]
fn numbers_of_one_byte_without_0(rt: HostRuntime) -> Result<(), Fail> {
    let mut own = [0u8; 1];
    NonZeroI8::store(NonZeroI8::new(-7).ok_or("0")?, &mut own);
    assert!(rt; own == [0xf9] && !NonZeroI8::accepts(&[0]));
    assert!(rt; NonZeroI8::accepts(&own) && NonZeroI8::read(&own).get() == -7);
    Ok(())
}
