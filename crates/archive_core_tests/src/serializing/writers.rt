//! Tests of the methods of every writer.
use archive_core_serializing::WriterExt;
use archive_shape::{ArchivedU64, Writer};
use std::test::Fail;

#[test]
fn writer_is_padded_and_aligned_by_zeros(rt: HostRuntime) -> Result<(), Fail> {
    let mut bytes = Vec::new(rt.alloc());
    bytes.write(b"abc")?;
    assert!(rt;
        bytes.pad(0) == Ok(())
            && bytes.align(4) == Ok(4)
            && bytes.align(4) == Ok(4)
            && bytes.align_for::<ArchivedU64>() == Ok(8)
            && bytes.pad(3) == Ok(())
            && bytes.as_slice() == b"abc\0\0\0\0\0\0\0\0".as_slice()
    );
    Ok(())
}

#[test]
fn own_bytes_are_aligned(rt: HostRuntime) -> Result<(), Fail> {
    let alloc = rt.alloc();
    let mut bytes = Vec::new(alloc);
    bytes.write(b"a")?;
    assert!(rt;
        bytes.resolve_aligned(alloc, &0x0102u16, ()) == Ok(2)
            && bytes.as_slice() == [b'a', 0, 2, 1].as_slice()
    );
    Ok(())
}
