//! Tests of a writer over memory of a fixed length.
use archive_core_serializing::Buffer;
use archive_shape::{Error, Positional, Writer};
use std::test::Fail;

#[test]
fn pieces_go_behind_one_another_up_to_the_end(rt: HostRuntime) -> Result<(), Fail> {
    let mut memory = [0xcc; 4];
    let mut buffer = Buffer::from(&mut memory);
    buffer.write(b"ab")?;
    assert!(rt; buffer.write(b"cde") == Err(Error::BufferOverflow));
    buffer.write(b"c")?;
    assert!(rt;
        buffer.pos() == 3
            && buffer.bytes() == b"abc".as_slice()
            && memory == [b'a', b'b', b'c', 0xcc]
    );
    Ok(())
}
