//! Tests of the reading of options.
use super::checked::{checked, position};
use archive_forms_values::ArchivedOption;
use archive_shape::{ArchivedU16, Ref};
use std::alloc::Global;

/// Returns whether the option at 0 has a value, whether it has none, and the position of its value.
fn found(alloc: Global, bytes: &[u8]) -> Option<(bool, bool, Option<usize>)> {
    match checked::<ArchivedOption<ArchivedU16>>(alloc, bytes, 0) {
        Ok(option) => Some((
            ArchivedOption::is_some(option),
            ArchivedOption::is_none(option),
            position(ArchivedOption::as_ref(option)),
        )),
        Err(_) => None,
    }
}

#[test]
fn value_of_an_option_stands_at_its_alignment(rt: HostRuntime) {
    assert!(rt;
        found(rt.alloc(), b"\x01\0\x05\0") == Some((true, false, Some(2)))
            && found(rt.alloc(), b"\0\x01\x05\x01") == Some((false, true, None))
    );
}

/// Returns whether another value stands for the one that the option at 0 has not, or `None` if the option is refused.
fn is_replaced(alloc: Global, bytes: &[u8], other: Ref<'_, u8>) -> Option<bool> {
    let Ok(none) = checked::<ArchivedOption<u8>>(alloc, bytes, 0) else {
        return None;
    };
    Some(
        ArchivedOption::ok_or(none, 7).err() == Some(7)
            && ArchivedOption::unwrap_or(none, other).pos() == 0
            && ArchivedOption::unwrap_or_else(none, || other).pos() == 0,
    )
}

#[test]
fn another_value_stands_for_none(rt: HostRuntime) {
    assert!(rt; is_replaced(rt.alloc(), b"\0\x05", Ref::new(b"..", 0)) == Some(true));
}
