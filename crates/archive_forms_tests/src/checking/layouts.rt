//! Tests of the layouts of forms that have parts.
use archive_forms_values::{
    ArchivedBox, ArchivedOption, ArchivedResult, ArchivedTuple2, ArchivedTuple3, ArchivedTuple4,
    ArchivedVec, Entry,
};
use archive_shape::{ArchivedChar, ArchivedU16, ArchivedU32, ArchivedU64, Portable, RelPtr, Str};

#[test]
fn sizes_and_alignments(rt: HostRuntime) {
    let rows = [
        (ArchivedBox::<u8>::SIZE, ArchivedBox::<u8>::ALIGN, 4, 4),
        (ArchivedVec::<bool>::SIZE, ArchivedVec::<bool>::ALIGN, 8, 4),
        (
            ArchivedOption::<ArchivedChar>::SIZE,
            ArchivedOption::<ArchivedChar>::ALIGN,
            8,
            4,
        ),
        (
            ArchivedResult::<bool, ArchivedChar>::SIZE,
            ArchivedResult::<ArchivedChar, bool>::ALIGN,
            8,
            4,
        ),
        (
            <[ArchivedTuple2<ArchivedU16, u8>; 2]>::SIZE,
            <[ArchivedTuple2<ArchivedU16, u8>; 2]>::ALIGN,
            8,
            2,
        ),
        (
            ArchivedTuple3::<u8, ArchivedU32, ArchivedU16>::SIZE,
            ArchivedTuple3::<u8, ArchivedU32, ArchivedU16>::ALIGN,
            12,
            4,
        ),
        (
            ArchivedTuple4::<ArchivedU16, u8, ArchivedU64, bool>::SIZE,
            ArchivedTuple4::<ArchivedU16, u8, ArchivedU64, bool>::ALIGN,
            24,
            8,
        ),
        (
            Entry::<ArchivedU64, u8>::SIZE,
            Entry::<ArchivedU64, u8>::ALIGN,
            16,
            8,
        ),
    ];
    for (size, align, wanted_size, wanted_align) in rows {
        assert!(rt; size == wanted_size && align == wanted_align);
    }
}

#[test]
fn shapes_are_made(rt: HostRuntime) {
    let alloc = rt.alloc();
    assert!(rt;
        bool::shape(alloc).err().is_none()
            && ArchivedChar::shape(alloc).err().is_none()
            && <[ArchivedU16; 3]>::shape(alloc).err().is_none()
            && <RelPtr<Str, ArchivedU32> as Portable>::shape(alloc)
                .err()
                .is_none()
            && ArchivedOption::<bool>::shape(alloc).err().is_none()
            && ArchivedVec::<bool>::shape(alloc).err().is_none()
            && ArchivedTuple2::<bool, u8>::shape(alloc).err().is_none()
    );
}
