//! Tests of the sizes and alignments of types.
use archive_shape::{ArchivedChar, ArchivedI128, LittleEndian, NoUndef, Portable};
use std::marker::PhantomData;
use std::num::NonZeroU128;

/// Returns the size and the alignment of a type without undefined bytes.
fn size_and_align<T: Portable + NoUndef>() -> (usize, usize) {
    (T::SIZE, T::ALIGN)
}

#[test]
fn sizes_and_alignments_of_leaves(rt: HostRuntime) {
    assert!(rt;
        size_and_align::<bool>() == (1, 1)
            && size_and_align::<()>() == (0, 1)
            && size_and_align::<PhantomData<u64>>() == (0, 1)
            && size_and_align::<ArchivedChar>() == (4, 4)
            && size_and_align::<ArchivedI128>() == (16, 16)
            && size_and_align::<LittleEndian<NonZeroU128>>() == (16, 16)
    );
}
