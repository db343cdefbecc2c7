//! Tests of wholes that lie in one another: by each scan they are opened or refused, answered, loaded and saved again.
use crate::archives::{WHOLES_BY_PLACE, chain, doubled, whole_again_in_options};
use cabinet::{
    Document, EditAnswer, Group1, Group8, Group16, Kind, Leaf, Line, OpenRefusal, Scan, Step,
    check_scanned, open_scanned, read_line, read_text, to_bytes, write_text,
};
use cabinet_doubles::text_of_wholes;
use std::alloc::{AllocError, Global};
use std::test::Fail;

/// Returns what each scan says of bytes.
fn outcomes(alloc: Global, archive: &[u8]) -> [Result<(), OpenRefusal>; 3] {
    [
        check_scanned::<Group1>(alloc, archive),
        check_scanned::<Group8>(alloc, archive),
        check_scanned::<Group16>(alloc, archive),
    ]
}

// The access comes before the audit, so it accepts bytes that are too deep.
#[test]
fn a_later_place_of_a_whole_is_too_deep_where_65_containers_lie_in_one_another(
    rt: HostRuntime,
) -> Result<(), AllocError> {
    for (around, offset, outcome) in [
        (1, 0xcc, Ok(())),
        (2, 0xb4, Err(OpenRefusal::TooDeep)),
        (3, 0x9c, Err(OpenRefusal::TooDeep)),
    ] {
        let archive = whole_again_in_options(rt.alloc(), around, offset)?;
        assert!(rt; outcomes(rt.alloc(), &archive) == [outcome; 3]);
    }
    assert!(rt; outcomes(rt.alloc(), &chain(rt.alloc(), 64)?) == [Ok(()); 3]);
    let more = chain(rt.alloc(), 65)?;
    assert!(rt; outcomes(rt.alloc(), &more) == [Err(OpenRefusal::TooDeep); 3]);
    Ok(())
}

/// Returns whether an archive that is opened by a scan is loaded as a document of this text and this number of wholes, which
/// is saved as the same bytes.
fn is_loaded<G: Scan>(alloc: Global, archive: &[u8], text: &[u8], count: usize) -> bool {
    let Ok(mut bytes) = Vec::from_slice(alloc, archive) else {
        return false;
    };
    let Ok(opened) = open_scanned::<G>(alloc, bytes.as_mut_slice()) else {
        return false;
    };
    let Ok(document) = opened.load(alloc) else {
        return false;
    };
    let mut written = Vec::new(alloc);
    if write_text(&document, &mut written).is_err() || written.as_slice() != text {
        return false;
    }
    match to_bytes(alloc, &document) {
        Ok(saved) => saved.as_slice() == archive && document.wholes().len() == count,
        Err(_) => false,
    }
}

/// Returns whether a document is saved as these bytes, and each scan loads it of them.
fn is_kept(alloc: Global, archive: &[u8], text: &[u8], count: usize) -> Result<bool, Fail> {
    let document: Document = read_text(alloc, text).map_err(|_| "no document")?;
    Ok(
        to_bytes(alloc, &document)?.as_slice() == archive
            && is_loaded::<Group1>(alloc, archive, text, count)
            && is_loaded::<Group8>(alloc, archive, text, count)
            && is_loaded::<Group16>(alloc, archive, text, count),
    )
}

#[test]
fn wholes_in_one_another_are_saved_and_loaded_each_once(rt: HostRuntime) -> Result<(), Fail> {
    let text = text_of_wholes(rt.alloc(), &["whole "], 64)?;
    let archive = chain(rt.alloc(), 64)?;
    assert!(rt; archive.len() == 1560);
    assert!(rt; is_kept(rt.alloc(), &archive, &text, 64)?);
    let text = text_of_wholes(rt.alloc(), &["list 2\nwhole ", "whole "], 30)?;
    let archive = doubled(rt.alloc(), 30)?;
    assert!(rt; archive.len() == 2184);
    assert!(rt; is_kept(rt.alloc(), &archive, &text, 30)?);
    Ok(())
}

#[test]
fn wholes_in_a_hashed_map_are_numbered_by_its_keys(rt: HostRuntime) -> Result<(), Fail> {
    let text = b"wholes 2\nint 1\nint 2\nhashed 2\n'a\nwhole 0\n'b\nwhole 1\n";
    assert!(rt; is_kept(rt.alloc(), WHOLES_BY_PLACE, text, 2)?);
    Ok(())
}

/// A question whose path leads to the innermost node of thirty doubled wholes, and one whose path leads to the last whole on
/// the way.
const INNERMOST: &[u8] =
    b"get #0 ? #0 ? #0 ? #0 ? #0 ? #0 ? #0 ? #0 ? #0 ? #0 ? #0 ? #0 ? #0 ? #0 ? #0 ? #0 ? #0 ? #0 ? #0 ? #0 ? #0 ? #0 ? #0 ? #0 ? #0 ? #0 ? #0 ? #0 ? #0 ? #0 ?";

const LAST_WHOLE: &[u8] =
    b"get #0 ? #0 ? #0 ? #0 ? #0 ? #0 ? #0 ? #0 ? #0 ? #0 ? #0 ? #0 ? #0 ? #0 ? #0 ? #0 ? #0 ? #0 ? #0 ? #0 ? #0 ? #0 ? #0 ? #0 ? #0 ? #0 ? #0 ? #0 ? #0 ? #1";

/// Returns the path that a question asks for.
fn asked_path(line: Line) -> Option<Vec<Step>> {
    match line {
        Line::Get(path) => Some(path),
        _ => None,
    }
}

/// Returns whether a document has a node of this kind where a question asks for it, to which no key is compared, and which
/// no edit changes.
fn is_edited_nowhere<G: Scan>(
    alloc: Global,
    bytes: &mut [u8],
    question: &[u8],
    kind: Kind,
) -> Result<bool, Fail> {
    let path = asked_path(read_line(alloc, question)?).ok_or("no question")?;
    let mut opened = open_scanned::<G>(alloc, bytes).map_err(|_| "refused")?;
    let (located, steps) = opened.locate(&path);
    Ok(
        located == Some(kind)
            && steps.comparisons == 0
            && steps.strides == 0
            && opened.set(&path, &Leaf::Int(2)) == EditAnswer::Refused,
    )
}

/// Returns the answers to both questions about an archive.
fn answers<G: Scan>(alloc: Global, bytes: &mut [u8]) -> Result<Vec<u8>, Fail> {
    let opened = open_scanned::<G>(alloc, bytes).map_err(|_| "refused")?;
    let mut answers = Vec::new(alloc);
    opened.ask(&read_line(alloc, INNERMOST)?, &mut answers)?;
    opened.ask(&read_line(alloc, LAST_WHOLE)?, &mut answers)?;
    Ok(answers)
}

/// Returns whether thirty doubled wholes answer both questions, and an edit of what they ask for is refused.
fn answers_innermost<G: Scan>(alloc: Global, archive: &[u8]) -> Result<bool, Fail> {
    let mut bytes = Vec::from_slice(alloc, archive)?;
    Ok(
        answers::<G>(alloc, bytes.as_mut_slice())?.as_slice() == b"int 1\nwhole\n".as_slice()
            && is_edited_nowhere::<G>(alloc, bytes.as_mut_slice(), INNERMOST, Kind::Int)?
            && is_edited_nowhere::<G>(alloc, bytes.as_mut_slice(), LAST_WHOLE, Kind::Whole)?
            && bytes.as_slice() == archive,
    )
}

#[test]
fn thirty_doubled_wholes_answer_by_each_scan(rt: HostRuntime) -> Result<(), Fail> {
    let archive = doubled(rt.alloc(), 30)?;
    assert!(rt; answers_innermost::<Group1>(rt.alloc(), &archive)?);
    assert!(rt; answers_innermost::<Group8>(rt.alloc(), &archive)?);
    assert!(rt; answers_innermost::<Group16>(rt.alloc(), &archive)?);
    Ok(())
}
