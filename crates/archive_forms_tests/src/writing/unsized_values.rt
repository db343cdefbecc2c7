//! Tests of boxes of borrowed values and slices.
ghost use Rattle.std.specs.Prelude.{◌≡◌, ◌≤◌};
ghost use Rattle.archive_shape_layout.specs.Shape.{size_of};
ghost use Rattle.archive_shape_layout.specs.Shape.Shape.{box};
ghost use Rattle.archive_shape.specs.Bytes.{zeros};

use super::serializer::MemorySerializer;
use archive_forms_writing::{SerializeUnsized, resolve_from_ref, serialize_from_ref};
use archive_shape::Place;
use std::alloc::Global;

/// Returns `true` if writing a box of `value` at position 8 writes `data` before it. The own bytes of the box are
/// written to `own`.
fn is_boxed_behind<U: SerializeUnsized<MemorySerializer>>(
    alloc: Global,
    value: &U,
    data: &[u8],
    own: &mut [u8],
) -> bool
    requires blank { own.old ≡ zeros (size_of (box U.Archived.pointee)) }
    requires small { size_of (box U.Archived.pointee) ≤ 8 }
{
    let mut serializer = MemorySerializer::new(alloc);
    let resolver = match serialize_from_ref(value, &mut serializer) {
        Ok(resolver) => resolver,
        Err(_) => return false,
    };
    serializer.bytes() == data && resolve_from_ref(value, resolver, Place::new(own, 8)).is_ok()
}

#[test]
fn a_box_of_a_borrowed_number(rt: HostRuntime) {
    let mut own = [0u8; 4];
    assert!(rt;
        is_boxed_behind(rt.alloc(), &&258u32, b"\x02\x01\0\0", &mut own[..])
            && own == *b"\xf8\xff\xff\xff"
    );
}

#[test]
fn a_box_of_a_slice(rt: HostRuntime) {
    let numbers = [7u16, 258, 9];
    let mut own = [0u8; 8];
    assert!(rt;
        is_boxed_behind(
            rt.alloc(),
            &&numbers[..],
            b"\x07\0\x02\x01\x09\0",
            &mut own[..]
        ) && own == *b"\xf8\xff\xff\xff\x03\0\0\0"
    );
}
