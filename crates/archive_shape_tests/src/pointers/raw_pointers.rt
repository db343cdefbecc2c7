//! Tests of pointers without metadata.

use archive_shape::{
    Place, Portable, RawRelPtr, RawRelPtrI16, RawRelPtrI32, RawRelPtrI64, RawRelPtrU8,
    RawRelPtrU16, Ref,
};
use archive_shape_layout::Error;

#[test]
fn pointers_that_fit_lead_to_their_targets(rt: HostRuntime) {
    let mut bytes = [0u8; 6];
    let emplaced = RawRelPtrI32::try_emplace(0, Place::within(&mut bytes, 2, 52));
    assert!(rt; emplaced == Ok(()) && bytes == [0, 0, 0xcc, 0xff, 0xff, 0xff]);
    let mut bytes = [9u8; 56];
    bytes[52] = 0xcc;
    bytes[53] = 0xff;
    bytes[54] = 0xff;
    bytes[55] = 0xff;
    let pointer: Ref<'_, RawRelPtrI32> = Ref::new(&bytes, 52);
    let read = (
        RawRelPtr::base(pointer),
        RawRelPtr::offset(pointer),
        RawRelPtr::target(pointer),
    );
    assert!(rt; read == (52, -52, Some(0)));
    let mut own = [9u8; 1];
    let refused = RawRelPtrU8::try_emplace(4, Place::new(&mut own, 8));
    assert!(rt; refused == Err(Error::IsizeOverflow) && own == [9]);
}

#[test]
fn an_offset_of_1_leads_nowhere(rt: HostRuntime) {
    let mut bytes = [0u8; 2];
    let before = RawRelPtrI16::is_invalid(Ref::new(&bytes, 0));
    let emplaced = RawRelPtrI16::try_emplace_invalid(Place::new(&mut bytes, 0));
    let after = RawRelPtrI16::is_invalid(Ref::new(&bytes, 0));
    assert!(rt; !before && emplaced == Ok(()) && after && bytes == [1, 0]);
    assert!(rt; <RawRelPtrI64 as Portable>::SIZE == 8 && <RawRelPtrU16 as Portable>::ALIGN == 2);
}
