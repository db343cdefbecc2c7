//! Tests of archives in which one byte was changed, each byte to each other value: what opening says of them, and that each
//! scan refuses them, or answers and loads their document, and leaves their bytes.
ghost use Rattle.std.specs.Prelude.{◌<◌, length};

use crate::archives::{LIST, OPTION, TEXT};
use cabinet::{Group1, Group8, Group16, Line, OpenRefusal, Scan, check, open_scanned};
use cabinet_doubles::archives::{
    A_TO_WORLD, COFFEE_AND_TEA, SIX, TWO_SHARED, TWO_WHOLES, VAT_IN_EU, Z_AND_A,
};
use std::alloc::{AllocError, Global};

/// How many archives were accepted, how many were refused because their keys do not ascend, how many because a control is
/// not the tag of its key, how many because they hold no node at their root, and how many each scan refused, or answered
/// and loaded, and left as they were.
#[derive(Clone, Copy, Debug, PartialEq, Eq)]
struct Answers {
    accepted: usize,
    unordered: usize,
    other_tag: usize,
    no_archive: usize,
    left: usize,
}

/// Puts a byte at an index.
fn put(bytes: &mut [u8], index: usize, value: u8) {
    if let Some(byte) = bytes.get_mut(index) {
        *byte = value;
    }
}

/// Returns whether bytes are refused by a scan, or a question about their document is answered and the document is loaded.
fn returns<G: Scan>(alloc: Global, bytes: &mut [u8]) -> bool {
    let Ok(opened) = open_scanned::<G>(alloc, bytes) else {
        return true;
    };
    let line = Line::Get(Vec::new(alloc));
    opened.ask(&line, &mut Vec::new(alloc)).is_ok() && opened.load(alloc).is_ok()
}

/// Asks what opening says of bytes, and counts it.
fn count_refusal(alloc: Global, bytes: &[u8], answers: &mut Answers) {
    match check(alloc, bytes) {
        Ok(()) => answers.accepted = answers.accepted.saturating_add(1),
        Err(OpenRefusal::KeysNotAscending) => {
            answers.unordered = answers.unordered.saturating_add(1);
        }
        Err(OpenRefusal::WrongTag) => answers.other_tag = answers.other_tag.saturating_add(1),
        Err(OpenRefusal::Access(_)) => answers.no_archive = answers.no_archive.saturating_add(1),
        Err(_) => {}
    }
}

/// Opens an archive with each other value of one byte, and counts the answers.
fn count_at(
    alloc: Global,
    archive: &[u8],
    index: usize,
    answers: &mut Answers,
) -> Result<(), AllocError>
    requires { index < length archive.now }
{
    let mut bytes = Vec::from_slice(alloc, archive)?;
    let mut spoilt = Vec::from_slice(alloc, archive)?;
    for value in 0..=255 {
        if value != archive[index] {
            put(bytes.as_mut_slice(), index, value);
            put(spoilt.as_mut_slice(), index, value);
            count_refusal(alloc, &bytes, answers);
            let returns = returns::<Group1>(alloc, bytes.as_mut_slice())
                && returns::<Group8>(alloc, bytes.as_mut_slice())
                && returns::<Group16>(alloc, bytes.as_mut_slice());
            if returns && bytes.as_slice() == spoilt.as_slice() {
                answers.left = answers.left.saturating_add(1);
            }
        }
    }
    Ok(())
}

/// Opens an archive with each other value of each byte, and returns the counts of the answers.
fn answers_to(alloc: Global, archive: &[u8]) -> Result<Answers, AllocError> {
    let mut answers = Answers {
        accepted: 0,
        unordered: 0,
        other_tag: 0,
        no_archive: 0,
        left: 0,
    };
    for index in 0..archive.len() {
        count_at(alloc, archive, index, &mut answers)?;
    }
    Ok(answers)
}

// The counts are those of a second reading of the layout, in another language: 255 for each byte of no field and of a
// number, and some of the values of each other byte.
#[test]
fn archives_with_another_byte_are_answered_and_stay(rt: HostRuntime) -> Result<(), AllocError> {
    let rows = [
        (COFFEE_AND_TEA.as_slice(), 45_422, 113, 0, 5_465, 51_000),
        (SIX, 86_339, 645, 0, 12_976, 99_960),
        (VAT_IN_EU, 72_182, 0, 506, 15_032, 87_720),
        (A_TO_WORLD, 21_289, 0, 254, 9_057, 30_600),
        (TWO_WHOLES, 19_401, 0, 0, 5_079, 24_480),
    ];
    for (archive, accepted, unordered, other_tag, no_archive, left) in rows {
        let answers = Answers {
            accepted,
            unordered,
            other_tag,
            no_archive,
            left,
        };
        assert!(rt; answers_to(rt.alloc(), archive)? == answers);
    }
    Ok(())
}

#[test]
fn each_scan_leaves_archives_with_another_byte(rt: HostRuntime) -> Result<(), AllocError> {
    for archive in [OPTION.as_slice(), TEXT, LIST, TWO_SHARED, Z_AND_A] {
        let left = answers_to(rt.alloc(), archive)?.left;
        assert!(rt; left == archive.len().saturating_mul(255));
    }
    Ok(())
}
