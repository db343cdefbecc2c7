//! Kept maps of archived nodes: whether each key is found under its number, and the node of a key.
ghost use Rattle.std.specs.Prelude.{◌≡◌, ◌<◌, ℕ, List, IfSome, MatchOption};
ghost use Rattle.archive_shape_layout.specs.Value.{Value};
ghost use Rattle.archive_shape_layout.specs.Content.Part.{at};
ghost use Rattle.archive_shape_layout.specs.Shape.Shape.{text};
ghost use Rattle.archive_forms_laws.specs.Text.{IsText};
ghost use Rattle.archive_forms_values.specs.Parts.{HasValue};
ghost use Rattle.archive_shape_canonical.specs.Hash.{text_hash};
ghost use Rattle.cabinet_documents.specs.Audit.{kept_faults};
ghost use Rattle.cabinet_documents.specs.Node.{node_names, node_shape, pair_shape};
ghost use Rattle.cabinet_documents.specs.Table.{kept_at, table_of};
ghost use Rattle.cabinet_documents.specs.Walk.{Stop, Walks};
ghost use Rattle.archive_index.specs.Lookups.{AnswersEntry, pair_of};
ghost use Rattle.archive_index.specs.Maps.{count_of, entry_position};
ghost use Rattle.cabinet_archives.specs.Cost.{Searches};
ghost use Rattle.cabinet_archives.specs.Kept.{HasNumbered, OfKept, index_shape, kept_search_faults, kept_tag_faults};
ghost use Rattle.cabinet_archives.specs.Keyed.{KeyLeads, KeyLeadsNowhere, OfMap, SaysKey, knows_pairs};
ghost use Rattle.cabinet_archives.specs.Sound.{IsSoundPart, Reports};

use crate::maps::pairs::{has_key, has_key_of, is_found_at};
use crate::opening::OpenRefusal;
use archive_forms_values::ArchivedString;
use archive_hash_maps::ArchivedHashTable;
use archive_hash_maps::walking::number_at;
use archive_hash_probing::{FxHasher64, Scan, hash_text, tag_of};
use archive_shape::{Ref, Steps};
use cabinet_archived::{ArchivedIndexMap, ArchivedNode, search_entries};

/// The index map of nodes under texts.
pub(crate) type KeptMap = ArchivedIndexMap<ArchivedString, ArchivedNode, FxHasher64>;

/// Returns the key and the node of the entry with a number.
fn entry_of<'a>(
    map: Ref<'a, KeptMap>,
    index: usize,
) -> (Ref<'a, ArchivedString>, Ref<'a, ArchivedNode>)
    requires has { HasValue index_shape knows_pairs map.bytes.now map.pos }
    requires within { OfKept map.bytes.now map.pos (λ m. index < count_of m) }
    ensures { OfKept map.entry.bytes.now map.entry.pos (λ m. result ≡ pair_of map.entry.bytes text node_shape m index) }
{
    KeptMap::get_index(map, index).unwrap()
}

/// Returns the position and the text of the key of the entry with a number.
fn key_of<'a>(map: Ref<'a, KeptMap>, index: usize) -> (usize, &'a str)
    requires has { HasValue index_shape knows_pairs map.bytes.now map.pos }
    requires within { OfKept map.bytes.now map.pos (λ m. index < count_of m) }
    ensures position { OfKept map.entry.bytes.now map.entry.pos (λ m. result.0 ≡ entry_position text node_shape m index) }
    ensures text { IsText map.entry.bytes.now result.0 result.1.now }
{
    let (key, _) = entry_of(map, index);
    (key.pos(), ArchivedString::as_str(key))
}

/// Returns the number of the first entry with a key that a search for the key's hash visits, and how many strides were
/// searched for it.
fn search<G: Scan>(map: Ref<'_, KeptMap>, hash: u64, key: &str) -> (Option<usize>, usize)
    requires has { HasValue index_shape knows_pairs map.bytes.now map.pos }
    requires hash { hash ≡ text_hash key.now }
    ensures within { OfKept map.entry.bytes.now map.entry.pos (λ m. IfSome result.0 (λ i. i < count_of m)) }
    ensures answers { OfKept map.entry.bytes.now map.entry.pos (λ m.
        AnswersEntry map.entry.bytes.now text node_shape m (SaysKey map.entry.bytes.now key.now) (λ i. i) hash result.0 result.1) }
{
    let bytes = map.bytes;
    let accepts = |at: usize| -> bool
        requires { HasValue pair_shape knows_pairs bytes.now at }
        ensures { SaysKey bytes.entry.now key.entry.now at result }
    { has_key(bytes, at, key) };
    search_entries::<ArchivedString, ArchivedNode, G, _>(bytes, map.pos, hash, &accepts)
}

/// The same search for the key of the entry at `own`, which is not read.
fn search_own<G: Scan>(
    map: Ref<'_, KeptMap>,
    hash: u64,
    key: &str,
    own: usize,
) -> (Option<usize>, usize)
    requires has { HasValue index_shape knows_pairs map.bytes.now map.pos }
    requires own { IsText map.bytes.now own key.now }
    requires hash { hash ≡ text_hash key.now }
    ensures { OfKept map.entry.bytes.now map.entry.pos (λ m.
        AnswersEntry map.entry.bytes.now text node_shape m (SaysKey map.entry.bytes.now key.now) (λ i. i) hash result.0 result.1) }
{
    let bytes = map.bytes;
    let accepts = |at: usize| -> bool
        requires has { HasValue pair_shape knows_pairs bytes.now at }
        requires own { IsText bytes.now own key.now }
        ensures { SaysKey bytes.entry.now key.entry.now at result }
    { has_key_of(bytes, at, own, key) };
    search_entries::<ArchivedString, ArchivedNode, G, _>(bytes, map.pos, hash, &accepts)
}

/// Audits the controls of a kept map by ascending place: each is the tag of the hash of the key of the entry whose number
/// the place has.
fn tags_sound(map: Ref<'_, KeptMap>) -> Result<(), OpenRefusal>
    requires { HasValue index_shape knows_pairs map.bytes.now map.pos }
    ensures { (depth : ℕ) (v : Value) (walk : List Stop)
        → Walks node_names map.entry.bytes.now depth (at map.entry.pos index_shape) v walk
        → Reports result (kept_tag_faults (table_of kept_at map.entry.bytes.now map.entry.pos v)) }
{
    for (_, control, number) in ArchivedHashTable::full_places(KeptMap::table(map)) {
        let (_, key) = key_of(map, number_at(number.bytes, number.pos()));
        if tag_of(hash_text(key)) != control {
            return Err(OpenRefusal::WrongTag);
        }
    }
    Ok(())
}

/// Audits the keys of a kept map in order: a search for each finds the number of its own entry.
fn keys_found<G: Scan>(map: Ref<'_, KeptMap>) -> Result<(), OpenRefusal>
    requires { HasValue index_shape knows_pairs map.bytes.now map.pos }
    ensures { (depth : ℕ) (v : Value) (walk : List Stop)
        → Walks node_names map.entry.bytes.now depth (at map.entry.pos index_shape) v walk
        → Reports result (kept_search_faults (table_of kept_at map.entry.bytes.now map.entry.pos v)) }
{
    for index in 0..KeptMap::len(map) {
        let (own, key) = key_of(map, index);
        if !is_found_at(search_own::<G>(map, hash_text(key), key, own).0, index) {
            return Err(OpenRefusal::NotFound);
        }
    }
    Ok(())
}

/// Audits the table of a kept map: a wrong control is reported first, and then a key whose search does not find its own
/// entry. Where each key is found, the entries have as many places as the table has, each under its key's tag: so
/// controls are read only where a key is not found.
pub(crate) fn kept_sound<G: Scan>(map: Ref<'_, KeptMap>) -> Result<(), OpenRefusal>
    requires { HasValue index_shape knows_pairs map.bytes.now map.pos }
    ensures { (depth : ℕ) (v : Value) (walk : List Stop)
        → Walks node_names map.entry.bytes.now depth (at map.entry.pos index_shape) v walk
        → Reports result (kept_faults (table_of kept_at map.entry.bytes.now map.entry.pos v)) }
{
    match keys_found::<G>(map) {
        Ok(()) => Ok(()),
        Err(lost) => {
            tags_sound(map)?;
            Err(lost)
        }
    }
}

/// Returns the node of a key, if the map has the key, and how many strides were searched for it. Reads only the controls
/// that a search for the key's hash visits and the entries under its tag.
pub(crate) fn get_counted<'a, G: Scan>(
    map: Ref<'a, KeptMap>,
    key: &str,
) -> (Option<Ref<'a, ArchivedNode>>, Steps)
    requires has { HasValue index_shape knows_pairs map.bytes.now map.pos }
    requires sound { IsSoundPart map.bytes.now (at map.pos index_shape) }
    ensures leads { OfMap index_shape map.entry.bytes.now map.entry.pos (λ v. MatchOption result.0
        (KeyLeadsNowhere v key.now)
        (λ node. (node.bytes ≡ map.entry.bytes) × KeyLeads map.entry.bytes.now v key.now node.pos)) }
    ensures way { IfSome result.0 (λ node. HasNumbered map.entry.bytes.now map.entry.pos key.now node.pos) }
    ensures sound { IfSome result.0 (λ node. IsSoundPart map.entry.bytes.now (at node.pos node_shape)) }
    ensures compares { result.1.comparisons ≡ 0 }
    ensures searches { OfMap index_shape map.entry.bytes.now map.entry.pos (λ v.
        Searches (table_of kept_at map.entry.bytes.now map.entry.pos v) key.now result.1.strides) }
{
    let (found, strides) = search::<G>(map, hash_text(key), key);
    let steps = Steps {
        comparisons: 0,
        strides,
    };
    match found {
        Some(index) => {
            let (_, node) = entry_of(map, index);
            (Some(node), steps)
        }
        None => (None, steps),
    }
}
