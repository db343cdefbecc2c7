//! Tests of what counted and weak pointers lead to.
use crate::rc::values::{number, text};
use archive_core::{
    ArchivedRc, ArchivedRcStr, ArchivedRcWeak, ArchivedRcWeakStr, ArchivedU32, Error, RcFlavor,
    access, native_of, to_bytes,
};
use std::alloc::Global;

/// Returns the number that a weak pointer leads to.
fn upgraded(alloc: Global, bytes: &[u8]) -> Result<Option<u32>, Error> {
    let root = access::<ArchivedRcWeak<ArchivedU32, RcFlavor>>(alloc, bytes)?;
    match ArchivedRcWeak::upgrade(root) {
        Some(value) => Ok(Some(native_of(value))),
        None => Ok(None),
    }
}

/// Returns whether the text that a weak pointer leads to is `text`.
fn upgraded_text(alloc: Global, bytes: &[u8], text: &str) -> Result<Option<bool>, Error> {
    let root = access::<ArchivedRcWeakStr<RcFlavor>>(alloc, bytes)?;
    match ArchivedRcWeakStr::upgrade(root) {
        Some(found) => Ok(Some(found == text)),
        None => Ok(None),
    }
}

#[test]
fn a_weak_pointer_leads_to_a_value_or_to_nothing(rt: HostRuntime) {
    let alloc = rt.alloc();
    let there = b"\x07\0\0\0\x01\0\0\0\xf8\xff\xff\xff";
    assert!(rt; upgraded(alloc, there) == Ok(Some(7)) && upgraded(alloc, &[0; 8]) == Ok(None));
    let there = b"ab\0\0\x01\0\0\0\xf8\xff\xff\xff\x02\0\0\0";
    assert!(rt;
        upgraded_text(alloc, there, "ab") == Ok(Some(true))
            && upgraded_text(alloc, &[0; 12], "") == Ok(None)
    );
    let other_tag = b"\x02\0\0\0\xfc\xff\xff\xff\0\0\0\0";
    assert!(rt; upgraded_text(alloc, other_tag, "") == Err(Error::InvalidTag));
}

#[test]
fn a_counted_pointer_leads_to_its_value(rt: HostRuntime) -> Result<(), Error> {
    let alloc = rt.alloc();
    let bytes = to_bytes(alloc, &number(alloc, 3, 9)?)?;
    let pointer = access::<ArchivedRc<ArchivedU32, RcFlavor>>(alloc, &bytes)?;
    assert!(rt; native_of(ArchivedRc::get(pointer)) == 9);
    let bytes = to_bytes(alloc, &text(alloc, 3, "hello world!")?)?;
    let pointer = access::<ArchivedRcStr<RcFlavor>>(alloc, &bytes)?;
    assert!(rt; ArchivedRcStr::get(pointer) == "hello world!");
    Ok(())
}
