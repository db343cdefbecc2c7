//! Tests of what references read.

use archive_shape::{ArchivedI32, ArchivedU16, ArchivedU32, Ref};

#[test]
fn numbers_and_truth_values_are_read(rt: HostRuntime) {
    let bytes = [1, 2, 3, 0, 0, 0x80, 0x4c, 0xff, 0xff, 0xff];
    let short = Ref::<ArchivedU16>::new(&bytes, 0).to_native();
    let unsigned = Ref::<ArchivedU32>::new(&bytes, 2).to_native();
    let signed = Ref::<ArchivedI32>::new(&bytes, 6).to_native();
    let truth = Ref::<bool>::new(&[0, 1], 1).to_native();
    assert!(rt; (short, unsigned, signed, truth) == (0x0201, 0x8000_0003, -180, true));
}
