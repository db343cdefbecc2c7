//! Tests of the kinds that paths lead to, and of what the look-ups on them take, by each scan.
use crate::archives::{A_APART, EMPTY_HASHED, EMPTY_KEPT, EMPTY_ORDERED, FIVE_ABOVE_NONE, tall};
use archive_shape_layout::Error;
use cabinet::{
    Document, Group1, Group8, Group16, Kind, Line, Node, OpenRefusal, Scan, Step, Steps, check,
    open, open_scanned, read_line, to_bytes,
};
use cabinet_doubles::archives::{
    A_TO_WORLD, COFFEE_AND_TEA, TWO_WHOLES, VAT_IN_EU, WHOLE_IN_MAPS, Z_AND_A,
};
use std::alloc::{AllocError, Global};
use std::collections::BTreeMap;
use std::test::Fail;

/// Returns what a path leads to in an archive that is opened by a scan, and the comparisons and strides on the way.
fn located<G: Scan>(alloc: Global, archive: &[u8], path: &[Step]) -> Option<(Option<Kind>, Steps)> {
    let mut bytes = Vec::from_slice(alloc, archive).ok()?;
    let opened = open_scanned::<G>(alloc, bytes.as_mut_slice()).ok()?;
    Some(opened.locate(path))
}

/// Returns the same for the path of a question, by each scan.
fn located_by_each(
    alloc: Global,
    archive: &[u8],
    line: &[u8],
) -> [Option<(Option<Kind>, Steps)>; 3] {
    match read_line(alloc, line) {
        Ok(Line::Get(path)) => [
            located::<Group1>(alloc, archive, &path),
            located::<Group8>(alloc, archive, &path),
            located::<Group16>(alloc, archive, &path),
        ],
        _ => [None; 3],
    }
}

/// Archives, questions, the kinds of what they ask for, and the comparisons and strides on the way.
const ROWS: [(&[u8], &[u8], Option<Kind>, usize, usize); 28] = [
    (COFFEE_AND_TEA, b"get", Some(Kind::Ordered), 0, 0),
    (COFFEE_AND_TEA, b"get 'tea", Some(Kind::Int), 2, 0),
    (COFFEE_AND_TEA, b"get 'x", None, 2, 0),
    (COFFEE_AND_TEA, b"get #0", None, 0, 0),
    (COFFEE_AND_TEA, b"get ?", None, 0, 0),
    // what follows a step that leads nowhere takes nothing
    (COFFEE_AND_TEA, b"get 'a 'a", None, 1, 0),
    (VAT_IN_EU, b"get 'eu", Some(Kind::Hashed), 1, 0),
    (VAT_IN_EU, b"get 'eu 'vat", Some(Kind::List), 1, 1),
    (VAT_IN_EU, b"get 'eu 'vat #1", Some(Kind::Int), 1, 1),
    (A_TO_WORLD, b"get 'a", Some(Kind::Text), 0, 1),
    (A_TO_WORLD, b"get 'b", None, 0, 1),
    // a key in another place that its search shows
    (A_APART, b"get 'a", Some(Kind::Int), 0, 1),
    (Z_AND_A, b"get", Some(Kind::Kept), 0, 0),
    (Z_AND_A, b"get 'a", Some(Kind::Int), 0, 1),
    (Z_AND_A, b"get 'b", None, 0, 1),
    // an inner node's five keys, and its child without entries
    (FIVE_ABOVE_NONE, b"get 'e", Some(Kind::Int), 5, 0),
    (FIVE_ABOVE_NONE, b"get 'f", None, 5, 0),
    // into a whole, and past what lies in it
    (TWO_WHOLES, b"get #1", Some(Kind::Whole), 0, 0),
    (TWO_WHOLES, b"get #1 ?", Some(Kind::Int), 0, 0),
    (TWO_WHOLES, b"get #1 ? ?", None, 0, 0),
    (TWO_WHOLES, b"get #1 #0", None, 0, 0),
    (WHOLE_IN_MAPS, b"get #0 'a", Some(Kind::Whole), 1, 0),
    (WHOLE_IN_MAPS, b"get #0 'b", Some(Kind::Int), 2, 0),
    (WHOLE_IN_MAPS, b"get #1 'a ?", Some(Kind::Int), 0, 1),
    (WHOLE_IN_MAPS, b"get #2 'a ?", Some(Kind::Int), 0, 1),
    // maps without pairs
    (EMPTY_ORDERED, b"get 'a", None, 0, 0),
    (EMPTY_HASHED, b"get 'a", None, 0, 0),
    (EMPTY_KEPT, b"get 'a", None, 0, 0),
];

#[test]
fn paths_lead_to_kinds_and_take_steps(rt: HostRuntime) {
    for (archive, line, kind, comparisons, strides) in ROWS {
        let steps = Steps {
            comparisons,
            strides,
        };
        let located = located_by_each(rt.alloc(), archive, line);
        assert!(rt; located == [Some((kind, steps)); 3]);
    }
}

#[test]
fn trees_have_at_most_32_levels_of_five_comparisons(rt: HostRuntime) -> Result<(), AllocError> {
    let most = tall(rt.alloc(), 32)?;
    let steps = Steps {
        comparisons: 160,
        strides: 0,
    };
    let located = located_by_each(rt.alloc(), &most, b"get 'Oe");
    assert!(rt; located == [Some((Some(Kind::Int), steps)); 3]);
    let more = tall(rt.alloc(), 33)?;
    let refusal = OpenRefusal::Access(Error::TooManyLevels);
    assert!(rt; check(rt.alloc(), &more) == Err(refusal));
    Ok(())
}

/// Returns the decimal texts of the numbers below `count`, each with its number.
fn numbers(alloc: Global, count: i64) -> Result<BTreeMap<String, Node>, Fail> {
    let mut pairs = BTreeMap::new(alloc);
    for number in 0..count {
        pairs.insert(format!(in alloc; "{number}")?, Node::Int(number))?;
    }
    Ok(pairs)
}

/// Returns whether a look-up by a scan finds each of these texts in a hashed map that has them as keys, with at most so
/// many strides.
fn is_each_found<G: Scan>(alloc: Global, archive: &[u8], count: i64, most: usize) -> bool {
    for number in 0..count {
        let Ok(text) = format!(in alloc; "{number}") else {
            return false;
        };
        match located::<G>(alloc, archive, &[Step::Key(text)]) {
            Some((Some(Kind::Int), steps)) if steps.strides <= most && steps.comparisons == 0 => {}
            _ => return false,
        }
    }
    true
}

#[test]
fn each_key_of_hashed_maps_takes_at_most_a_stride_for_sixteen_places(
    rt: HostRuntime,
) -> Result<(), Fail> {
    // the last two maps have 128 places and 245
    for (count, most) in [
        (1, 1),
        (5, 1),
        (6, 1),
        (17, 2),
        (35, 3),
        (36, 3),
        (112, 8),
        (215, 16),
    ] {
        let document = Document::new(Node::Hashed(numbers(rt.alloc(), count)?))?;
        let archive = to_bytes(rt.alloc(), &document)?;
        assert!(rt; is_each_found::<Group1>(rt.alloc(), &archive, count, most));
        assert!(rt; is_each_found::<Group8>(rt.alloc(), &archive, count, most));
        assert!(rt; is_each_found::<Group16>(rt.alloc(), &archive, count, most));
    }
    Ok(())
}

#[test]
fn keys_of_a_map_of_215_are_compared_from_the_root_down(rt: HostRuntime) -> Result<(), Fail> {
    let document = Document::new(Node::Ordered(numbers(rt.alloc(), 215)?))?;
    let mut archive = to_bytes(rt.alloc(), &document)?;
    let opened = open(rt.alloc(), archive.as_mut_slice()).map_err(|_| "refused")?;
    for (key, comparisons) in [("0", 3), ("99", 15)] {
        let path = [Step::Key(String::from_str(rt.alloc(), key)?)];
        assert!(rt; opened.locate(&path).1.comparisons == comparisons);
    }
    Ok(())
}
