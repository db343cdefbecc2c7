//! Tests of what laws say of archives: which keys of their maps are answered, and which have no wholes.
ghost use Rattle.std.specs.Prelude.{IsTrue, IfOk};
ghost use Rattle.cabinet.specs.KeyLaws.{TellsKeys};
ghost use Rattle.cabinet.specs.WholesLaws.{IsWithoutWholes};

use archive_shape_layout::Error;
use cabinet::laws::{archive_answers_its_pairs, archive_without_wholes, text_without_wholes};
use cabinet::{Asked, Line, Opened, Step, open, read_line};
use cabinet_doubles::archives::{
    A_TO_WORLD, COFFEE_AND_TEA, TWO_SHARED, TWO_WHOLES, VAT_IN_EU, WHOLE_IN_MAPS, Z_AND_A,
};
use std::alloc::{AllocError, Global};

/// Asks for the node at a path. A key of a map is answered exactly if it is among the pairs of the map.
fn asked_for(alloc: Global, opened: &Opened<'_>, path: Vec<Step>) -> Result<Asked, Error>
    ensures { IfOk result (TellsKeys opened.now.bytes.now (Line.Get path)) }
{
    archive_answers_its_pairs();
    let mut answer = Vec::new(alloc);
    match opened.ask(&Line::Get(path), &mut answer) {
        Ok(asked) => Ok(asked),
        Err(refusal) => Err(refusal),
    }
}

/// Returns what comes of a question for a node of an archive.
fn outcome_of(alloc: Global, archive: &[u8], question: &[u8]) -> Option<Asked> {
    let mut bytes = Vec::from_slice(alloc, archive).ok()?;
    let opened = open(alloc, bytes.as_mut_slice()).ok()?;
    match read_line(alloc, question) {
        Ok(Line::Get(path)) => asked_for(alloc, &opened, path).ok(),
        _ => None,
    }
}

/// Archives, questions for keys of their maps, and what comes of them.
const KEYS: [(&[u8], &[u8], Asked); 8] = [
    (COFFEE_AND_TEA, b"get 'tea", Asked::Answered),
    (COFFEE_AND_TEA, b"get 'milk", Asked::Missing),
    (VAT_IN_EU, b"get 'eu 'vat", Asked::Answered),
    (VAT_IN_EU, b"get 'vat", Asked::Missing),
    (A_TO_WORLD, b"get 'a", Asked::Answered),
    (A_TO_WORLD, b"get '", Asked::Missing),
    (Z_AND_A, b"get 'a", Asked::Answered),
    (Z_AND_A, b"get 'b", Asked::Missing),
];

#[test]
fn keys_are_answered_if_they_are_among_the_pairs(rt: HostRuntime) {
    for (archive, question, asked) in KEYS {
        assert!(rt; outcome_of(rt.alloc(), archive, question) == Some(asked));
    }
}

/// Returns whether the document that an archive is loaded as has no wholes. Then no node of the archive is one.
fn is_without_wholes(alloc: Global, opened: &Opened<'_>) -> Result<bool, AllocError>
    ensures { IfOk result (λ none. IsTrue none → IsWithoutWholes opened.now.bytes.now) }
{
    text_without_wholes();
    archive_without_wholes();
    match opened.load(alloc) {
        Ok(document) => Ok(document.wholes().is_empty()),
        Err(refusal) => Err(refusal),
    }
}

/// Returns whether an archive has no wholes.
fn has_none(alloc: Global, archive: &[u8]) -> Option<bool> {
    let mut bytes = Vec::from_slice(alloc, archive).ok()?;
    let opened = open(alloc, bytes.as_mut_slice()).ok()?;
    is_without_wholes(alloc, &opened).ok()
}

/// Archives, and whether they have no wholes.
const WHOLES: [(&[u8], bool); 4] = [
    (VAT_IN_EU, true),
    (TWO_SHARED, true),
    (TWO_WHOLES, false),
    (WHOLE_IN_MAPS, false),
];

#[test]
fn documents_without_wholes_have_archives_without_them(rt: HostRuntime) {
    for (archive, none) in WHOLES {
        assert!(rt; has_none(rt.alloc(), archive) == Some(none));
    }
}
