//! Tests of what pointers lead to.

use archive_shape::{
    ArchivePointee, ArchivedI64, ArchivedU32, ArchivedUsize, LayoutRaw, Ref, Slice, Str,
};
use archive_shape_layout::Pointee;

#[test]
fn pointees_have_layouts_and_numbers_of_elements(rt: HostRuntime) {
    let slice = Slice::<ArchivedU32>::layout_raw(3);
    let too_long = Slice::<ArchivedU32>::layout_raw(0x4000_0000_0000_0000);
    let layouts = (
        ArchivedI64::layout_raw(7),
        slice,
        too_long,
        Str::layout_raw(5),
    );
    assert!(rt; layouts == (Some((8, 8)), Some((12, 4)), None, Some((5, 1))));
    let bytes = [9, 0x2c, 1, 0, 0];
    let length = Ref::<ArchivedUsize>::new(&bytes, 1);
    assert!(rt;
        Slice::<bool>::pointer_metadata(&length) == 300
            && Str::pointer_metadata(&length) == 300
            && ArchivedI64::pointer_metadata(&Ref::new(&bytes, 1)) == 1
    );
}

#[test]
fn pointees_are_values_slices_or_texts(rt: HostRuntime) {
    let value = <bool as ArchivePointee>::pointee(rt.alloc());
    assert!(rt; matches!(value, Ok(Pointee::Sized(_))));
    let slice = <Slice<bool> as ArchivePointee>::pointee(rt.alloc());
    assert!(rt; matches!(slice, Ok(Pointee::Slice(_))));
    let text = <Str as ArchivePointee>::pointee(rt.alloc());
    assert!(rt; matches!(text, Ok(Pointee::Text)));
}
