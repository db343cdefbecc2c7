//! Tests of values that are archived by each function.
use super::{HELLO, hello};
use archive_core::{to_bytes_in, to_bytes_in_with_alloc, to_bytes_with_alloc};
use archive_core_serializing::Buffer;
use archive_shape::Error;
use std::test::Fail;

#[test]
fn a_value_in_memory_and_in_a_writer(rt: HostRuntime) -> Result<(), Fail> {
    let alloc = rt.alloc();
    let value = hello(alloc)?;
    assert!(rt; to_bytes_with_alloc(alloc, &value, alloc)?.as_slice() == &HELLO[..]);
    let writer: Vec<u8> = Vec::new(alloc);
    assert!(rt; to_bytes_in_with_alloc(&value, writer, alloc)?.as_slice() == &HELLO[..]);
    Ok(())
}

#[test]
fn a_number_behind_other_bytes(rt: HostRuntime) -> Result<(), Fail> {
    let alloc = rt.alloc();
    let writer = vec![in alloc; 0xaau8]?;
    let bytes = to_bytes_in(alloc, &5u32, writer)?;
    assert!(rt; bytes.as_slice() == &[0xaau8, 0, 0, 0, 5, 0, 0, 0][..]);
    Ok(())
}

#[test]
fn padding_in_just_enough_bytes_is_zero_and_too_few_are_refused(
    rt: HostRuntime,
) -> Result<(), Fail> {
    let mut out = [0xccu8; 16];
    let written = to_bytes_in(rt.alloc(), &(0u8, 0u64), Buffer::from(&mut out))?;
    assert!(rt; written.bytes() == &[0u8; 16][..]);
    let mut few = [0xccu8; 4];
    let refused = to_bytes_in(rt.alloc(), &7u64, Buffer::from(&mut few)).err();
    assert!(rt; refused == Some(Error::BufferOverflow) && few == [0xcc; 4]);
    Ok(())
}
