//! Tests of serializers.
ghost use Rattle.std.specs.Prelude.{◌-◌, ◌^◌, ◌<◌};

use archive_core_serializing::Serializer;
use archive_forms_writing::{Serialize, serialize_using};
use archive_shape::{Allocator, Error, Positional, Writer};
use std::alloc::Global;
use std::test::Fail;

/// Returns the archive of a value, in memory that grows.
fn archive_of<T: Serialize<Serializer<Vec<u8>, Global, ()>>>(
    alloc: Global,
    value: &T,
) -> Result<Vec<u8>, Error> {
    let mut serializer = Serializer::new(Vec::new(alloc), alloc, ());
    serialize_using(value, &mut serializer)?;
    Ok(serializer.into_writer())
}

#[test]
fn text_out_of_line_stands_behind_its_bytes(rt: HostRuntime) -> Result<(), Fail> {
    let alloc = rt.alloc();
    let text = String::from_str(alloc, "hello world!")?;
    let archive = archive_of(alloc, &text)?;
    assert!(rt; archive.as_slice() == b"hello world!\x8c\0\0\0\xf4\xff\xff\xff".as_slice());
    Ok(())
}

/// Appends a copy of bytes, in memory of the serializer, and returns the position after them.
fn write_copy<S: Writer + Allocator>(serializer: &mut S, bytes: &[u8]) -> Result<usize, Error>
    requires { S.failures serializer.old < 2 ^ 64 - 1 }
{
    let copy = bytes.to_vec(serializer.memory())?;
    serializer.write(copy.as_slice())?;
    Ok(serializer.pos())
}

#[test]
fn serializer_writes_as_its_writer_and_gives_it_back(rt: HostRuntime) {
    let alloc = rt.alloc();
    let mut serializer = Serializer::new(Vec::new(alloc), alloc, ());
    assert!(rt;
        write_copy(&mut serializer, b"ab") == Ok(2) && write_copy(&mut serializer, b"cde") == Ok(5)
    );
    let (writer, _, _) = serializer.into_raw_parts();
    assert!(rt; writer.as_slice() == b"abcde".as_slice());
}
