//! Tests of pointers to sized types.
#![tactic(auto, unfolding(archive_shape_layout::specs::Bytes::align_up))]

use archive_shape::{ArchivedI32, ArchivedI64, ArchivedU64, Place, Ref, RelPtr};
use archive_shape_layout::Error;

#[test]
fn pointers_fit_up_to_both_ends(rt: HostRuntime) {
    type Pointer = RelPtr<ArchivedI64, i8>;
    let mut own = [9u8; 1];
    for (to, pos, want, left) in [
        (127, 0, Ok(()), 127),
        (128, 0, Err(Error::IsizeOverflow), 127),
        (0, 128, Ok(()), 0x80),
        (0, 129, Err(Error::IsizeOverflow), 0x80),
    ] {
        let emplaced = Pointer::try_emplace(to, Place::new(&mut own, pos));
        assert!(rt; emplaced == want && own == [left]);
    }
    let refused = RelPtr::<bool, u8>::try_emplace(4, Place::new(&mut own, 8));
    assert!(rt; refused == Err(Error::IsizeOverflow) && own == [0x80]);
}

#[test]
fn pointers_lead_forwards_and_backwards(rt: HostRuntime) {
    type Pointer = RelPtr<ArchivedI64, ArchivedI32>;
    let mut bytes = [9u8; 20];
    for pos in [0, 16] {
        let emplaced = Pointer::try_emplace(8, Place::within(&mut bytes, pos, pos));
        assert!(rt; emplaced == Ok(()));
    }
    let want = *b"\x08\0\0\0\x09\x09\x09\x09\x09\x09\x09\x09\x09\x09\x09\x09\xf8\xff\xff\xff";
    assert!(rt; bytes == want);
    let forwards: Ref<'_, Pointer> = Ref::new(&bytes, 0);
    let backwards: Ref<'_, Pointer> = Ref::new(&bytes, 16);
    assert!(rt; RelPtr::target(forwards) == Some(8) && RelPtr::target(backwards) == Some(8));
    assert!(rt;
        RelPtr::base(backwards) == 16
            && RelPtr::offset(backwards) == -8
            && RelPtr::metadata(backwards) == 1
            && !RelPtr::is_invalid(backwards)
    );
}

#[test]
fn offsets_from_2_to_the_63rd_on_are_less_2_to_the_64th(rt: HostRuntime) {
    type Pointer = RelPtr<ArchivedI64, ArchivedU64>;
    let bytes = *b"\0\0\0\0\0\0\0\x80\xfd\xff\xff\xff\xff\xff\xff\xff";
    let least: Ref<'_, Pointer> = Ref::new(&bytes, 0);
    assert!(rt; RelPtr::offset(least) == isize::MIN && RelPtr::target(least) == None);
    let near: Ref<'_, Pointer> = Ref::new(&bytes, 8);
    assert!(rt; RelPtr::offset(near) == -3 && RelPtr::target(near) == Some(5));
}
