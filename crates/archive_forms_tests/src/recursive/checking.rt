//! Tests of the check of lists.
use super::list::ArchivedList;
use crate::checking::check_alone;
use archive_shape::Error;

#[test]
fn lists_of_lists_are_accepted_and_those_that_lead_on_refused(rt: HostRuntime) {
    let three = *b"\0\0\0\0\0\0\0\0\x01\0\0\0\xf4\xff\xff\xff\x01\0\0\0\xf4\xff\xff\xff";
    // a list that leads to itself, and one that leads to a list behind it, which leads back
    let itself = *b"\x01\0\0\0\xfc\xff\xff\xff\0\0\0\0\0\0\0\0\0\0\0\0\0\0\0\0";
    let behind = *b"\x01\0\0\0\x04\0\0\0\x01\0\0\0\xf4\xff\xff\xff\0\0\0\0\0\0\0\0";
    let refused = Err(Error::InvalidSubtreePointer { size: 8 });
    let rows = [
        (three, 0, 0, Ok(())),
        (three, 8, 1, Ok(())),
        (three, 16, 2, Ok(())),
        (three, 16, 1, Err(Error::ExceededMaximumSubtreeDepth)),
        (itself, 0, 9, refused),
        (behind, 0, 9, refused),
        (behind, 8, 9, refused),
    ];
    for (bytes, pos, most, result) in rows {
        assert!(rt; check_alone::<ArchivedList>(rt.alloc(), &bytes, pos, most) == result);
    }
}
