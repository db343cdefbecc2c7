//! Tests of the reading of results.
use super::checked::{checked, position};
use archive_forms_values::ArchivedResult;
use archive_shape::{ArchivedU32, Ref};
use std::alloc::Global;

type Outcome = ArchivedResult<u8, ArchivedU32>;

/// Returns whether the result at `pos` has a value, which stands at `at`, or `None` if it is refused.
fn is_ok_at(alloc: Global, bytes: &[u8], pos: usize, at: usize) -> Option<bool> {
    let Ok(ok) = checked::<Outcome>(alloc, bytes, pos) else {
        return None;
    };
    Some(
        ArchivedResult::is_ok(ok)
            && position(ArchivedResult::ok(ok)) == Some(at)
            && position(ArchivedResult::iter(ok).next()) == Some(at),
    )
}

/// Returns the position of the value of the result at `pos`, or 0 for an error, or `None` if it is refused.
fn value_or_start(alloc: Global, bytes: &[u8], pos: usize) -> Option<usize> {
    let Ok(ok) = checked::<Outcome>(alloc, bytes, pos) else {
        return None;
    };
    Some(ArchivedResult::unwrap_or_else(ok, |e| Ref::new(e.bytes(), 0)).pos())
}

#[test]
fn value_of_a_result_stands_at_the_greater_alignment(rt: HostRuntime) {
    let bytes = b"\0\0\0\0\x05\0\0\0";
    assert!(rt;
        is_ok_at(rt.alloc(), bytes, 0, 4) == Some(true)
            && value_or_start(rt.alloc(), bytes, 0) == Some(4)
    );
}
