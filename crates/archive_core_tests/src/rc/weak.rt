//! Tests of weak pointers: how they are archived with counted pointers of their keys, and read back.
use crate::rc::values::{number, numbers, text};
use archive_core::{Error, Shared, SharedWeak, from_bytes, to_bytes};
use std::alloc::Global;
use std::rc::{Rc, RcSlice, RcStr};

type Pair = (SharedWeak<Rc<u32>>, Shared<Rc<u32>>);

type Unsized = (SharedWeak<RcSlice<u32>>, SharedWeak<RcStr>);

/// Returns a weak pointer to a number under a key.
fn weak(alloc: Global, key: usize, value: u32) -> Result<SharedWeak<Rc<u32>>, Error> {
    let shared = number(alloc, key, value)?;
    Ok(SharedWeak {
        shared: Some(shared),
    })
}

/// Returns what a weak pointer leads to, with its key.
fn led(weak: &SharedWeak<Rc<u32>>) -> Option<(usize, u32)> {
    match &weak.shared {
        Some(shared) => Some((shared.key, *shared.value)),
        None => None,
    }
}

#[test]
fn the_value_of_one_key_stands_once_and_those_of_two_apart(rt: HostRuntime) -> Result<(), Error> {
    let alloc = rt.alloc();
    let rows: [(usize, u32, usize, &[u8]); 2] = [
        (
            3,
            7,
            0,
            b"\x07\0\0\0\x01\0\0\0\xf8\xff\xff\xff\xf4\xff\xff\xff",
        ),
        (
            4,
            9,
            4,
            b"\x07\0\0\0\x09\0\0\0\x01\0\0\0\xf4\xff\xff\xff\xf4\xff\xff\xff",
        ),
    ];
    for (key, value, position, expected) in rows {
        let pair = (weak(alloc, 3, 7)?, number(alloc, key, value)?);
        let bytes = to_bytes(alloc, &pair)?;
        assert!(rt; &*bytes == expected);
        let (first, second) = from_bytes::<Pair>(alloc, &bytes)?;
        assert!(rt;
            led(&first) == Some((0, 7)) && (second.key, *second.value) == (position, value)
        );
    }
    Ok(())
}

#[test]
fn a_weak_pointer_to_nothing_is_zeros(rt: HostRuntime) -> Result<(), Error> {
    let alloc = rt.alloc();
    let nothing = SharedWeak::<Rc<u32>> { shared: None };
    let bytes = to_bytes(alloc, &nothing)?;
    assert!(rt;
        &*bytes == &[0; 8][..] && led(&from_bytes::<SharedWeak<Rc<u32>>>(alloc, &bytes)?) == None
    );
    let pair = (nothing, number(alloc, 3, 7)?);
    let bytes = to_bytes(alloc, &pair)?;
    let expected: &[u8] = b"\x07\0\0\0\0\0\0\0\0\0\0\0\xf4\xff\xff\xff";
    assert!(rt; &*bytes == expected);
    Ok(())
}

#[test]
fn weak_pointers_to_elements_and_texts_are_archived_and_read(rt: HostRuntime) -> Result<(), Error> {
    let alloc = rt.alloc();
    let pair = (
        SharedWeak {
            shared: Some(numbers(alloc, 1, &[6, 8])?),
        },
        SharedWeak {
            shared: Some(text(alloc, 2, "ab")?),
        },
    );
    let bytes = to_bytes(alloc, &pair)?;
    let expected: &[u8] =
        b"\x06\0\0\0\x08\0\0\0ab\0\0\x01\0\0\0\xf0\xff\xff\xff\x02\0\0\0\x01\0\0\0\xec\xff\xff\xff\x02\0\0\0";
    assert!(rt; &*bytes == expected);
    let (elements, letters) = from_bytes::<Unsized>(alloc, &bytes)?;
    assert!(rt;
        matches!(&elements.shared, Some(led) if led.key == 0 && led.value.as_slice() == [6, 8].as_slice())
            && matches!(&letters.shared, Some(led) if led.key == 8 && &*led.value == "ab")
    );
    let nothing: Unsized = (SharedWeak { shared: None }, SharedWeak { shared: None });
    assert!(rt; &*to_bytes(alloc, &nothing)? == &[0; 24][..]);
    Ok(())
}
