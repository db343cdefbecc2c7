//! Tests of the texts that refusals and faults of runs are printed as.
use archive_shape_layout::Error;
use cabinet::{OpenRefusal, RunCause, RunFault, SaveRefusal, SourceFailed};
use std::fmt::Display;
use std::process::Abort;

/// Checks that a value is printed as this text.
fn is_printed_as(rt: &(impl Abort + AllocGlobal), value: &impl Display, text: &str) {
    let printed = value.to_string(rt.alloc()).expect(rt, "memory");
    assert!(rt; printed.as_str() == text);
}

#[test]
fn refusals_and_faults_of_runs_are_printed(rt: HostRuntime) {
    let refusals = [
        (
            OpenRefusal::Access(Error::InvalidTag),
            "the bytes are not an archive: a tag that is not legal",
        ),
        (
            OpenRefusal::TooDeep,
            "more than 64 containers lie in one another",
        ),
        (
            OpenRefusal::KeysNotAscending,
            "the keys of an ordered map do not ascend",
        ),
        (
            OpenRefusal::WrongTag,
            "a control of a map is not the tag of its key",
        ),
        (
            OpenRefusal::NotFound,
            "a key of a map is not found at its place",
        ),
        (OpenRefusal::OutOfMemory, "out of memory"),
    ];
    for (refusal, text) in refusals {
        is_printed_as(&rt, &refusal, text);
    }
    let refusals = [
        (
            SaveRefusal::Limit(Error::IsizeOverflow),
            "the document is past the limits of archives: the offset does not fit",
        ),
        (
            SaveRefusal::Writer(Error::WriterFailed),
            "the writer failed: the writer failed",
        ),
        (SaveRefusal::OutOfMemory, "out of memory"),
    ];
    for (refusal, text) in refusals {
        is_printed_as(&rt, &refusal, text);
    }
    let causes = [
        (
            RunCause::Read,
            "the source failed after 3 lines, 1 of them edits",
        ),
        (
            RunCause::Write,
            "the writer failed after 3 lines, 1 of them edits",
        ),
        (
            RunCause::OutOfMemory,
            "out of memory after 3 lines, 1 of them edits",
        ),
        (
            RunCause::LineTooLong,
            "a line is too long after 3 lines, 1 of them edits",
        ),
        (
            RunCause::InputTooLong,
            "the input is too long after 3 lines, 1 of them edits",
        ),
    ];
    for (cause, text) in causes {
        is_printed_as(
            &rt,
            &RunFault {
                cause,
                lines: 3,
                edits: 1,
            },
            text,
        );
    }
    is_printed_as(&rt, &SourceFailed, "the source failed");
}
