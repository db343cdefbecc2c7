//! Hashed maps of archived nodes: whether each key is found at its place, and the node of a key.
ghost use Rattle.std.specs.Prelude.{◌≡◌, ℕ, ◌≤◌, ◌==◌, false, List, IfSome, MatchOption};
ghost use Rattle.archive_shape_layout.specs.Value.{Value};
ghost use Rattle.archive_shape_layout.specs.Content.Part.{at};
ghost use Rattle.archive_forms_laws.specs.Text.{IsText};
ghost use Rattle.archive_forms_values.specs.Parts.{HasValue};
ghost use Rattle.archive_shape_canonical.specs.Hash.{text_hash};
ghost use Rattle.archive_shape_canonical.specs.Strides.{sixteens};
ghost use Rattle.archive_hash_maps.specs.Tables.{Buckets, IsTableAt};
ghost use Rattle.archive_hash_maps.specs.Places.{LooksUp};
ghost use Rattle.cabinet_documents.specs.Audit.{hashed_faults};
ghost use Rattle.cabinet_documents.specs.Node.{node_names, node_shape, pair_shape};
ghost use Rattle.cabinet_documents.specs.Table.{hashed_at, table_of};
ghost use Rattle.cabinet_documents.specs.Walk.{Stop, Walks};
ghost use Rattle.cabinet_archives.specs.Cost.{Searches};
ghost use Rattle.cabinet_archives.specs.Hashed.{HasBucket, table_shape};
ghost use Rattle.cabinet_archives.specs.Keyed.{KeyLeads, KeyLeadsNowhere, OfMap, SaysKey, knows_pairs};
ghost use Rattle.cabinet_archives.specs.Sound.{IsSoundPart, Reports};

use crate::maps::pairs::{Pair, has_key, has_key_of, is_found_at, key_of};
use crate::opening::OpenRefusal;
use archive_forms_values::{ArchivedString, Entry};
use archive_hash_maps::walking::search_table;
use archive_hash_maps::{ArchivedHashMap, ArchivedHashTable};
use archive_hash_probing::{FxHasher64, Scan, hash_text, tag_of};
use archive_shape::{Ref, Steps};
use cabinet_archived::ArchivedNode;

/// The table of nodes under texts.
pub(crate) type HashedMap = ArchivedHashMap<ArchivedString, ArchivedNode, FxHasher64>;

/// Returns the position of the first pair with a key that a search for the key's hash visits, and how many strides were
/// searched for it.
fn search<G: Scan>(map: Ref<'_, HashedMap>, hash: u64, key: &str) -> (Option<usize>, usize)
    requires has { HasValue table_shape knows_pairs map.bytes.now map.pos }
    requires hash { hash ≡ text_hash key.now }
    ensures answers { (b : Buckets) → IsTableAt map.entry.bytes.now pair_shape map.entry.pos b
        → LooksUp (SaysKey map.entry.bytes.now key.now) pair_shape b hash result.0 result.1 }
    ensures few { (b : Buckets) → IsTableAt map.entry.bytes.now pair_shape map.entry.pos b → result.1 ≤ sixteens b.cap }
    ensures there { IfSome result.0 (HasValue pair_shape knows_pairs map.entry.bytes.now) }
{
    let bytes = map.bytes;
    let accepts = |at: usize| -> bool
        requires { HasValue pair_shape knows_pairs bytes.now at }
        ensures { SaysKey bytes.entry.now key.entry.now at result }
    { has_key(bytes, at, key) };
    search_table::<Pair, G, _>(bytes, map.pos, hash, &accepts)
}

/// The same search for the key of the pair at `own`, which is not read.
fn search_own<G: Scan>(
    map: Ref<'_, HashedMap>,
    hash: u64,
    key: &str,
    own: usize,
) -> (Option<usize>, usize)
    requires has { HasValue table_shape knows_pairs map.bytes.now map.pos }
    requires own { IsText map.bytes.now own key.now }
    requires hash { hash ≡ text_hash key.now }
    ensures { (b : Buckets) → IsTableAt map.entry.bytes.now pair_shape map.entry.pos b
        → LooksUp (SaysKey map.entry.bytes.now key.now) pair_shape b hash result.0 result.1 }
{
    let bytes = map.bytes;
    let accepts = |at: usize| -> bool
        requires has { HasValue pair_shape knows_pairs bytes.now at }
        requires own { IsText bytes.now own key.now }
        ensures { SaysKey bytes.entry.now key.entry.now at result }
    { has_key_of(bytes, at, own, key) };
    search_table::<Pair, G, _>(bytes, map.pos, hash, &accepts)
}

/// Audits the table of a hashed map by ascending place: the control of a key is the tag of its hash, and a search for the
/// key finds it at its own place.
pub(crate) fn hashed_sound<G: Scan>(map: Ref<'_, HashedMap>) -> Result<(), OpenRefusal>
    requires { HasValue table_shape knows_pairs map.bytes.now map.pos }
    ensures { (depth : ℕ) (v : Value) (walk : List Stop)
        → Walks node_names map.entry.bytes.now depth (at map.entry.pos table_shape) v walk
        → Reports result (hashed_faults (table_of hashed_at map.entry.bytes.now map.entry.pos v)) }
{
    for (_, control, pair) in ArchivedHashTable::full_places(HashedMap::table(map)) {
        let key = key_of(pair);
        let hash = hash_text(key);
        if tag_of(hash) != control {
            return Err(OpenRefusal::WrongTag);
        }
        let own = pair.pos();
        if !is_found_at(search_own::<G>(map, hash, key, own).0, own) {
            return Err(OpenRefusal::NotFound);
        }
    }
    Ok(())
}

/// Returns the node of a key, if the map has the key, and how many strides were searched for it. Reads only the controls
/// that a search for the key's hash visits and the pairs under its tag.
pub(crate) fn get_counted<'a, G: Scan>(
    map: Ref<'a, HashedMap>,
    key: &str,
) -> (Option<Ref<'a, ArchivedNode>>, Steps)
    requires has { HasValue table_shape knows_pairs map.bytes.now map.pos }
    requires sound { IsSoundPart map.bytes.now (at map.pos table_shape) }
    ensures leads { OfMap table_shape map.entry.bytes.now map.entry.pos (λ v. MatchOption result.0
        (KeyLeadsNowhere v key.now)
        (λ node. (node.bytes ≡ map.entry.bytes) × KeyLeads map.entry.bytes.now v key.now node.pos)) }
    ensures way { IfSome result.0 (λ node. HasBucket map.entry.bytes.now map.entry.pos key.now node.pos) }
    ensures sound { IfSome result.0 (λ node. IsSoundPart map.entry.bytes.now (at node.pos node_shape)) }
    ensures compares { result.1.comparisons ≡ 0 }
    ensures searches { OfMap table_shape map.entry.bytes.now map.entry.pos (λ v.
        Searches (table_of hashed_at map.entry.bytes.now map.entry.pos v) key.now result.1.strides) }
{
    let (found, strides) = search::<G>(map, hash_text(key), key);
    let steps = Steps {
        comparisons: 0,
        strides,
    };
    match found {
        Some(at) => (Some(Entry::value(Ref::<Pair>::new(map.bytes, at))), steps),
        None => (None, steps),
    }
}
