//! Tests of the own bytes of counted pointers to what was written, for a pointer at position 8 of the archive.
ghost use Rattle.archive_forms_laws.specs.Serializing.{HasState};

use crate::rc::values::{number, numbers, text};
use archive_core::{
    ArchivedRc, ArchivedRcSlice, ArchivedRcStr, Error, HighSerializer, Place, Positional, Registry,
    Serialize, Serializer, Share,
};
use std::alloc::Global;

type Memory = HighSerializer<Vec<u8>, Global>;

/// Returns a serializer that has written nothing.
fn serializer(alloc: Global) -> Memory
    ensures { HasState ⟦<Memory as Positional>⟧.pos ⟦<Memory as Registry>⟧.known result }
{
    Serializer::new(Vec::new(alloc), alloc, Share::new(alloc))
}

#[test]
fn a_pointer_to_a_number_is_the_offset_of_the_number(rt: HostRuntime) -> Result<(), Error> {
    let alloc = rt.alloc();
    let shared = number(alloc, 3, 7)?;
    let mut memory = serializer(alloc);
    let resolver = shared.serialize(&mut memory)?;
    let mut own = [0; 8];
    ArchivedRc::resolve_from_ref(&shared, resolver, Place::new(&mut own, 8))?;
    assert!(rt; memory.into_writer().as_slice() == b"\x07\0\0\0".as_slice());
    assert!(rt; own == *b"\xf8\xff\xff\xff\0\0\0\0");
    Ok(())
}

#[test]
fn a_pointer_to_elements_is_their_offset_and_number(rt: HostRuntime) -> Result<(), Error> {
    let alloc = rt.alloc();
    let shared = numbers(alloc, 3, &[6, 8])?;
    let mut memory = serializer(alloc);
    let resolver = shared.serialize(&mut memory)?;
    let mut own = [0; 8];
    ArchivedRcSlice::resolve_from_ref(&shared, resolver, Place::new(&mut own, 8))?;
    assert!(rt; memory.into_writer().as_slice() == b"\x06\0\0\0\x08\0\0\0".as_slice());
    assert!(rt; own == *b"\xf8\xff\xff\xff\x02\0\0\0");
    Ok(())
}

#[test]
fn a_pointer_to_a_text_is_its_offset_and_length(rt: HostRuntime) -> Result<(), Error> {
    let alloc = rt.alloc();
    let shared = text(alloc, 3, "ab")?;
    let mut memory = serializer(alloc);
    let resolver = shared.serialize(&mut memory)?;
    let mut own = [0; 8];
    ArchivedRcStr::resolve_from_ref(&shared, resolver, Place::new(&mut own, 8))?;
    assert!(rt; memory.into_writer().as_slice() == b"ab".as_slice());
    assert!(rt; own == *b"\xf8\xff\xff\xff\x02\0\0\0");
    Ok(())
}
