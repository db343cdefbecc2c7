//! Tests of pointers to slices and texts.
#![tactic(auto, unfolding(archive_shape_layout::specs::Bytes::align_up))]

use archive_shape::{
    ArchivedI16, ArchivedI32, ArchivedU32, ArchivedU64, LittleEndian, Place, Portable, Ref, RelPtr,
    Slice, Str,
};
use archive_shape_layout::Error;

#[test]
fn lengths_stand_after_the_offsets_of_pointers_that_fit(rt: HostRuntime) {
    type Pointer = RelPtr<Slice<ArchivedU32>, i8>;
    let mut bytes = [9u8; 16];
    let number = LittleEndian::from_native(300);
    for (to, start, pos, want) in [
        (127, 0, 0, Ok(())),
        (0, 8, 128, Ok(())),
        (128, 0, 0, Err(Error::IsizeOverflow)),
        (0, 8, 129, Err(Error::IsizeOverflow)),
    ] {
        let out = Place::within(&mut bytes, start, pos);
        let emplaced = Pointer::try_emplace_unsized(to, number, out);
        assert!(rt; emplaced == want);
    }
    assert!(rt; bytes == [127, 9, 9, 9, 0x2c, 1, 0, 0, 0x80, 9, 9, 9, 0x2c, 1, 0, 0]);
    let pointer: Ref<'_, Pointer> = Ref::new(&bytes, 8);
    let read = (
        RelPtr::metadata(pointer),
        RelPtr::offset(pointer),
        RelPtr::target(pointer),
    );
    assert!(rt; read == (300, -128, None));
}

#[test]
fn pointers_to_texts_lead_backwards(rt: HostRuntime) {
    type Pointer = RelPtr<Str, ArchivedI32>;
    let mut bytes = [9u8; 12];
    let number = LittleEndian::from_native(2);
    let emplaced = Pointer::try_emplace_unsized(0, number, Place::within(&mut bytes, 2, 2));
    assert!(rt; emplaced == Ok(()) && bytes == [9, 9, 0xfe, 0xff, 0xff, 0xff, 2, 0, 0, 0, 9, 9]);
    let pointer: Ref<'_, Pointer> = Ref::new(&bytes, 2);
    assert!(rt; RelPtr::target(pointer) == Some(0) && RelPtr::metadata(pointer) == 2);
}

#[test]
fn invalid_pointers_have_an_offset_of_1_and_no_elements(rt: HostRuntime) {
    type Pointer = RelPtr<Str, ArchivedI16>;
    let mut bytes = [9u8; 9];
    let emplaced = Pointer::try_emplace_invalid(Place::within(&mut bytes, 1, 1));
    assert!(rt; emplaced == Ok(()) && bytes == [9, 1, 0, 9, 9, 0, 0, 0, 0]);
    let pointer: Ref<'_, Pointer> = Ref::new(&bytes, 1);
    assert!(rt; RelPtr::is_invalid(pointer) && RelPtr::metadata(pointer) == 0);
}

#[test]
fn pointers_have_the_layout_of_their_two_fields(rt: HostRuntime) {
    type Short = RelPtr<Str, i8>;
    type Long = RelPtr<Slice<u8>, ArchivedU64>;
    assert!(rt; (Short::SIZE, Short::ALIGN, Long::SIZE, Long::ALIGN) == (8, 4, 16, 8));
    assert!(rt; <RelPtr<Str, ArchivedI32> as Portable>::SIZE == 8);
}
