//! Tests of the messages of errors.
use archive_shape_layout::Error;
use std::test::Fail;

#[test]
fn texts_of_refusals(rt: HostRuntime) -> Result<(), Fail> {
    let alloc = rt.alloc();
    let refusals = [
        (
            Error::IteratorLengthMismatch {
                expected: 3,
                actual: 2,
            },
            "iterator claimed that it contained 3 elements, but yielded 2 items during iteration",
        ),
        (
            Error::NodeLength { len: 9, maximum: 5 },
            "Invalid length in B-tree node: len 9 was greater than maximum 5",
        ),
        (
            Error::EntriesLengthMismatch { entries: 0, len: 1 },
            "B-tree map claimed to have 1 entries, but actually had 0",
        ),
    ];
    for (refusal, text) in refusals {
        let shown = format!(in alloc; "{refusal}")?;
        assert!(rt; shown.as_str() == text);
    }
    Ok(())
}
