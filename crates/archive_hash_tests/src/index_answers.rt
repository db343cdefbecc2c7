//! Tests of index maps that are archived, alone, beside a number and in another: what is looked up there is what their
//! pairs answer.
ghost use Rattle.std.specs.Prelude.{◌≡◌, IfOk};
ghost use Rattle.archive_shape_canonical.specs.Canonical.{AreBytes};
ghost use Rattle.archive_forms_values.specs.Parts.{HasValue};
ghost use Rattle.archive_index.specs.Maps.{HasMap};
ghost use Rattle.archive_hash_tests.specs.Answers.{ReturnsAmong, ReturnsNumber, ReturnsValue, number_with, value_among};

use crate::index_maps::Numbers;
use crate::index_owned::archive_of;
use crate::index_writing::numbered;
use crate::writing::text;
use archive_core::laws::{fields_are_readable, part_is_held, root_is_written, unshared_suits};
use archive_core::{Archive, access, to_bytes};
use archive_forms_values::{ArchivedString, ArchivedTuple2, native_of};
use archive_hash::HashedKeyOf;
use archive_hash_probing::FxHasher64;
use archive_index::laws::{map_written_at_answers, values_are_readable, written_map_answers};
use archive_index::{ArchivedIndexMap, OwnedIndexMap};
use archive_shape::{ArchivedU32, Error, Portable, Ref};
use std::alloc::Global;
use std::hash::{Hash, Hasher};

/// Each byte is less than 256.
fn each_is_a_byte(bytes: &[u8])
    ensures { AreBytes bytes.now }
{}

/// Returns the number of a key's entry in an archived map, if the map has the key.
fn number_of<Q: Hash, K: Archive + Hash, V: Archive>(
    map: Ref<'_, ArchivedIndexMap<K::Archived, V::Archived, FxHasher64>>,
    query: &Q,
) -> Option<usize>
where
    K::Archived: HashedKeyOf<K, Q>,
    requires { HasMap K.Archived.shape V.Archived.shape K.Archived.knows V.Archived.knows map }
    ensures { ReturnsNumber K.Archived.HashedKey K.Archived.key V.Archived.Portable K.spelling V.spelling Q.Hash
        ⟦<FxHasher64 as Default>⟧ ⟦<FxHasher64 as Hasher>⟧ map.entry.bytes.now map.entry.pos query.now result }
{
    ArchivedIndexMap::get_index_of(map, query)
}

/// Returns the value of a text in an archived map, if the map has the text.
fn value_of(map: Ref<'_, Numbers>, text: &str) -> Option<u32>
    requires { HasValue ⟦<Numbers as Portable>⟧.shape ⟦<Numbers as Portable>⟧.knows map.bytes.now map.pos }
    ensures { ReturnsValue ⟦<Numbers as Portable>⟧.shape ⟦<OwnedIndexMap<String, u32> as Archive>⟧
        map.entry.bytes.now map.entry.pos text.now result }
{
    each_is_a_byte(map.bytes);
    unshared_suits::<OwnedIndexMap<String, u32>>();
    values_are_readable::<&str, String, u32>();
    part_is_held::<u32>();
    match ArchivedIndexMap::get(map, &text) {
        Some(value) => Some(native_of(value)),
        None => None,
    }
}

/// Index maps as the values of another.
type Nested = OwnedIndexMap<String, OwnedIndexMap<String, u32>>;

type ArchivedNested = ArchivedIndexMap<ArchivedString, Numbers, FxHasher64>;

/// Returns the value of a text in an archived map that is the value of another text, if there are both.
fn value_in(maps: Ref<'_, ArchivedNested>, outer: &str, inner: &str) -> Option<u32>
    requires { HasValue ⟦<ArchivedNested as Portable>⟧.shape ⟦<ArchivedNested as Portable>⟧.knows
        maps.bytes.now maps.pos }
    ensures { ReturnsAmong ⟦<ArchivedNested as Portable>⟧.shape ⟦<Nested as Archive>⟧
        maps.entry.bytes.now maps.entry.pos outer.now inner.now result }
{
    each_is_a_byte(maps.bytes);
    unshared_suits::<Nested>();
    values_are_readable::<&str, String, OwnedIndexMap<String, u32>>();
    match ArchivedIndexMap::get(maps, &outer) {
        Some(map) => value_of(map, inner),
        None => None,
    }
}

/// Archives an index map, and returns the number of a text's entry in the archive: that of the first pair with the
/// text.
fn number_in_archive(
    alloc: Global,
    map: &OwnedIndexMap<String, u32>,
    text: &str,
) -> Result<Option<usize>, Error>
    ensures { IfOk result (λ number. number ≡ number_with text.now map.now.pairs.items) }
{
    written_map_answers::<&str, String, u32>();
    let bytes = archive_of(alloc, map)?;
    let archive = bytes.as_slice();
    let root = access::<Numbers>(alloc, archive)?;
    Ok(number_of::<&str, String, u32>(root, &text))
}

/// An index map beside a number.
type Pair = (OwnedIndexMap<String, u32>, u32);

/// Archives an index map beside a number, and returns the number of a text's entry there: that of the first pair with
/// the text.
fn number_in_pair(alloc: Global, pair: &Pair, text: &str) -> Result<Option<usize>, Error>
    ensures { IfOk result (λ number. number ≡ number_with text.now pair.now.0.pairs.items) }
{
    root_is_written::<Pair>();
    unshared_suits::<Pair>();
    fields_are_readable::<OwnedIndexMap<String, u32>, u32, (), ()>();
    map_written_at_answers::<&str, String, u32>();
    let bytes = to_bytes(alloc, pair)?;
    each_is_a_byte(&bytes);
    let archive = bytes.as_slice();
    let root = access::<ArchivedTuple2<Numbers, ArchivedU32>>(alloc, archive)?;
    let map = ArchivedTuple2::first(root);
    Ok(number_of::<&str, String, u32>(map, &text))
}

/// Archives index maps as the values of another, and returns the value of a text in the map of another text.
fn value_in_nested(
    alloc: Global,
    maps: &Nested,
    outer: &str,
    inner: &str,
) -> Result<Option<u32>, Error>
    ensures { IfOk result (λ value. value ≡ value_among outer.now inner.now maps.now) }
{
    root_is_written::<Nested>();
    let bytes = to_bytes(alloc, maps)?;
    let archive = bytes.as_slice();
    let root = access::<ArchivedNested>(alloc, archive)?;
    Ok(value_in(root, outer, inner))
}

/// Returns whether a text has this number in the archive of the index map of texts, alone and beside a number.
fn is_numbered(alloc: Global, texts: &[&str], text: &str, number: Option<usize>) -> bool {
    let Some(pairs) = numbered(alloc, texts, 7) else {
        return false;
    };
    let pair = (OwnedIndexMap { pairs }, 5);
    number_in_archive(alloc, &pair.0, text) == Ok(number)
        && number_in_pair(alloc, &pair, text) == Ok(number)
}

/// Texts, one of them, and the number of its first entry.
const ROWS: [(&[&str], &str, Option<usize>); 5] = [
    (&[], "a", None),
    (&["z", "a"], "a", Some(1)),
    (&["a", "a"], "a", Some(0)),
    (&["a longer key", "", "a longer key"], "", Some(1)),
    (&["a longer key", "", "a longer key"], "none", None),
];

#[test]
fn texts_have_the_numbers_of_their_first_pairs(rt: HostRuntime) {
    for (texts, text, number) in ROWS {
        assert!(rt; is_numbered(rt.alloc(), texts, text, number));
    }
}

/// Returns the index map of texts, each with the index map of all the texts, whose numbers go on from ten times its
/// own.
fn maps_of_maps(alloc: Global, texts: &[&str]) -> Option<Nested> {
    let mut pairs = Vec::new(alloc);
    let mut first = 0;
    for &key in texts {
        let map = OwnedIndexMap {
            pairs: numbered(alloc, texts, first)?,
        };
        if pairs.push((text(alloc, key)?, map)).is_err() {
            return None;
        }
        first = u32::wrapping_add(first, 10);
    }
    Some(OwnedIndexMap { pairs })
}

#[test]
fn texts_have_their_values_in_maps_of_maps(rt: HostRuntime) {
    let alloc = rt.alloc();
    let Some(maps) = maps_of_maps(alloc, &["a longer key", "", "a longer key"]) else {
        panic!(rt; "out of memory")
    };
    for (outer, inner, value) in [
        ("a longer key", "", Some(1)),
        ("", "a longer key", Some(10)),
        ("", "none", None),
        ("none", "", None),
    ] {
        assert!(rt; value_in_nested(alloc, &maps, outer, inner) == Ok(value));
    }
}
