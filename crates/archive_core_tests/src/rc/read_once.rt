//! Tests of shared values that are read back: each is read once for each counted pointer in the type that leads to it.
use crate::archives::archived_and_read;
use crate::rc::tower::Tower;
use crate::rc::values::{fives, number, numbers, text};
use archive_core::{Error, Shared, SharedWeak, from_bytes};
use std::alloc::Global;
use std::rc::{Rc, RcSlice, RcStr};
use std::test::Fail;

/// Returns two pointers to a list of three numbers, under one key; the first two numbers are under one key too.
fn lists(alloc: Global) -> Result<[Shared<Rc<Vec<Shared<Rc<u32>>>>>; 2], Error> {
    let Ok(first) = Rc::new(alloc, fives(alloc, &[1, 1, 8])?) else {
        return Err(Error::OutOfMemory);
    };
    let value = first.clone()?;
    Ok([
        Shared {
            key: 2,
            value: first,
        },
        Shared { key: 2, value },
    ])
}

#[test]
fn values_in_shared_values_are_shared(rt: HostRuntime) -> Result<(), Fail> {
    let [first, second] = archived_and_read(rt.alloc(), &lists(rt.alloc())?)??;
    assert!(rt;
        Rc::ptr_eq(&first.value, &second.value)
            && first.value.len() == 3
            && second.value.len() == 3
            && Rc::ptr_eq(&first.value[0].value, &second.value[1].value)
            && !Rc::ptr_eq(&first.value[0].value, &second.value[2].value)
            && Rc::strong_count(&first.value[0].value) == 2
    );
    Ok(())
}

#[test]
fn elements_and_texts_are_shared(rt: HostRuntime) -> Result<(), Fail> {
    let alloc = rt.alloc();
    let pairs = (
        [numbers(alloc, 1, &[6, 7])?, numbers(alloc, 1, &[6, 7])?],
        [
            text(alloc, 2, "hello world!")?,
            text(alloc, 2, "hello world!")?,
        ],
    );
    let (numbers, texts) = archived_and_read(alloc, &pairs)??;
    assert!(rt;
        RcSlice::ptr_eq(&numbers[0].value, &numbers[1].value)
            && RcStr::ptr_eq(&texts[0].value, &texts[1].value)
            && numbers[1].value.as_slice() == &[6, 7][..]
            && texts[1].value.as_str() == "hello world!"
    );
    Ok(())
}

#[test]
fn weak_pointers_share_with_one_another(rt: HostRuntime) -> Result<(), Fail> {
    let alloc = rt.alloc();
    let pair = [
        SharedWeak {
            shared: Some(number(alloc, 3, 7)?),
        },
        SharedWeak {
            shared: Some(number(alloc, 3, 7)?),
        },
    ];
    let [first, second] = archived_and_read(alloc, &pair)??;
    assert!(rt;
        matches!(
        (&first.shared, &second.shared),
        (Some(one), Some(two)) if Rc::ptr_eq(&one.value, &two.value)
    )
    );
    Ok(())
}

#[test]
fn fields_of_a_tuple_share_by_their_keys_alone(rt: HostRuntime) -> Result<(), Fail> {
    let alloc = rt.alloc();
    let pair = (number(alloc, 3, 7)?, number(alloc, 3, 7)?);
    let (first, second) = archived_and_read(alloc, &pair)??;
    assert!(rt; first.key == second.key && !Rc::ptr_eq(&first.value, &second.value));
    Ok(())
}

#[test]
fn thirty_doubled_levels_are_read_at_once(rt: HostRuntime) -> Result<(), Fail> {
    let alloc = rt.alloc();
    let mut bytes = vec![in alloc; 0; 8]?;
    for _ in 0..30 {
        // Two pointers to the tower before them, and the tower that has them.
        bytes.extend_from_slice(b"\xf8\xff\xff\xff\xf4\xff\xff\xff\xf8\xff\xff\xff\x02\0\0\0")?;
    }
    assert!(rt; bytes.len() == 488);
    let tower = from_bytes::<Tower>(alloc, &bytes)?;
    assert!(rt; tower.levels == 30);
    Ok(())
}
