//! Tests of archived numbers without 0.
use archive_shape::{ArchivedLeaf, ArchivedNonZeroI16, ArchivedNonZeroU16, ArchivedNonZeroU128};
use std::num::{NonZeroU8, NonZeroU16};
use std::test::Fail;

#[test]
fn numbers_without_0(rt: HostRuntime) -> Result<(), Fail> {
    let mut short = [0u8; 2];
    ArchivedNonZeroU16::store(NonZeroU16::new(0x0102).ok_or("0")?, &mut short);
    assert!(rt; short == [2, 1]);
    assert!(rt;
        ArchivedNonZeroU16::accepts(&[0, 1])
            && ArchivedNonZeroU16::read(&[0, 1]).get() == 0x0100
            && !ArchivedNonZeroU16::accepts(&[0, 0])
            && !ArchivedNonZeroI16::accepts(&[0, 0])
            && !ArchivedNonZeroU128::accepts(&[0; 16])
            && !NonZeroU8::accepts(&[0])
    );
    Ok(())
}
