//! Look-ups of texts in archived maps of ordered keys.
ghost use Rattle.archive_shape_layout.specs.Shape.Shape.{text, tree};
ghost use Rattle.archive_forms_values.specs.Parts.{HasValue, both};
ghost use Rattle.archive_example_stock.specs.Stock.{any};
ghost use Rattle.archive_example_stock.specs.Answers.{ReturnsText};

use archive_btree::ArchivedBTreeMap;
use archive_core::{Archive, ArchivedString, KeyOf, Ref};

/// Returns the text of a key in an archived map, if the map has the key.
pub fn text_of<'a, Q, K: Archive, const E: usize>(
    map: Ref<'a, ArchivedBTreeMap<K::Archived, ArchivedString, E>>,
    query: &Q,
) -> Option<&'a str>
where
    K::Archived: KeyOf<K, Q>,
    requires { HasValue (tree E K.Archived.shape text) (both K.Archived.knows any) map.bytes.now map.pos }
    ensures { ReturnsText E K.Archived.shape K.Archived.knows K.Archived.key K.Archived.order K.Archived.key_of K.spelling
        map.entry.bytes.now map.entry.pos query.now result }
{
    match ArchivedBTreeMap::get(map, query) {
        Some(name) => Some(ArchivedString::as_str(name)),
        None => None,
    }
}
