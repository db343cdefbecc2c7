//! Tests of the elements of slices and iterators, which are written as vectors, and of entries.
ghost use Rattle.std.specs.Prelude.{◌<◌, ◌^◌};

use super::is_archived_as;
use super::serializer::MemorySerializer;
use archive_forms_values::VecResolver;
use archive_forms_writing::{
    EntryAdapter, resolve_from_slice, serialize_from_iter, serialize_from_slice,
};
use archive_shape::{Error, Place};
use std::alloc::Global;

/// Returns whether writing numbers with the claimed number `len` returns `want` and writes `bytes`.
fn written_with_claim(
    alloc: Global,
    numbers: Vec<u16>,
    len: usize,
    want: Result<VecResolver, Error>,
    bytes: &[u8],
) -> bool {
    let mut serializer = MemorySerializer::new(alloc);
    let answer = serialize_from_iter(numbers, len, &mut serializer);
    answer == want && serializer.bytes() == bytes
}

/// Returns the own bytes of a vector of one number, which lies before them.
fn vector_of_one(alloc: Global, number: u32) -> Result<[u8; 8], Error> {
    let items = [number];
    let mut serializer = MemorySerializer::new(alloc);
    let resolver = match serialize_from_slice(&items[..], &mut serializer) {
        Ok(resolver) => resolver,
        Err(e) => return Err(e),
    };
    let mut own = [0u8; 8];
    match resolve_from_slice(&items[..], resolver, Place::new(&mut own[..], 4)) {
        Ok(()) => Ok(own),
        Err(e) => Err(e),
    }
}

/// Returns whether writing two numbers as so many is refused, and writes nothing.
fn is_refused_as(alloc: Global, numbers: Vec<u16>, expected: usize) -> bool {
    let want = Err(Error::IteratorLengthMismatch {
        expected,
        actual: 2,
    });
    written_with_claim(alloc, numbers, expected, want, b"")
}

#[test]
fn two_items_are_written_as_those_of_a_vector_if_two_are_claimed(rt: HostRuntime) {
    let alloc = rt.alloc();
    for expected in [0, 1, 2, 3] {
        let Ok(numbers) = vec![in alloc; 7u16, 258] else {
            panic!(rt; "no memory");
        };
        let is_written = if expected == 2 {
            let want = Ok(VecResolver { pos: 0 });
            written_with_claim(alloc, numbers, 2, want, b"\x07\0\x02\x01")
        } else {
            is_refused_as(alloc, numbers, expected)
        };
        assert!(rt; is_written);
    }
}

#[test]
fn a_slice_is_resolved_as_a_vector(rt: HostRuntime) {
    let own = vector_of_one(rt.alloc(), 5);
    assert!(rt; own == Ok(*b"\xfc\xff\xff\xff\x01\0\0\0"));
}

#[test]
fn entries_of_numbers(rt: HostRuntime) {
    let alloc = rt.alloc();
    let low = EntryAdapter::new(&7u8, &258u32);
    let high = EntryAdapter::new(&258u32, &7u8);
    assert!(rt;
        is_archived_as(alloc, &low, b"\x07\0\0\0\x02\x01\0\0")
            && is_archived_as(alloc, &high, b"\x02\x01\0\0\x07\0\0\0")
    );
}

#[test]
fn an_entry_of_a_text(rt: HostRuntime) {
    let Ok(key) = String::from_str(rt.alloc(), "123456789") else {
        panic!(rt; "no memory");
    };
    let entry = EntryAdapter::new(&key, &5u16);
    let bytes = b"123456789\0\0\0\x89\0\0\0\xf4\xff\xff\xff\x05\0\0\0";
    assert!(rt; is_archived_as(rt.alloc(), &entry, bytes));
}
