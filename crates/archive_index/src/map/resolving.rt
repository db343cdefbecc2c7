//! Writes the own bytes of an index map, once the positions of its controls and its entries are known.
ghost use Rattle.std.specs.Prelude.{◌+◌, ◌^◌, ◌<◌, ◌≤◌, length};
ghost use Rattle.archive_index.specs.Calls.Writing.{ResolvesMap};

use crate::map::ArchivedIndexMap;
use archive_forms_values::emplace_link;
use archive_hash::ArchivedHashTable;
use archive_hash_writing::index::IndexMapResolver;
use archive_shape::{ArchivedU32, Place, Portable};
use archive_shape_layout::Error;

impl<K: Portable, V: Portable, H> ArchivedIndexMap<K, V, H> {
    /// Writes the own bytes of the map of `len` entries: those of its table, as `ArchivedHashTable::resolve_from_len`
    /// writes them, and the pointer to its entries.
    ///
    /// # Errors
    /// The errors of `ArchivedHashTable::resolve_from_len`; then `IsizeOverflow` if the offset to the entries does not
    /// fit. After an error no bytes other than the map's own ones have changed.
    pub fn resolve_from_len(
        len: usize,
        load_factor: (usize, usize),
        resolver: IndexMapResolver,
        out: Place<'_, ArchivedIndexMap<K, V, H>>,
    ) -> Result<(), Error>
        requires room { out.start + 16 ≤ length out.out.now }
        requires stands { out.pos + 16 < 2 ^ 64 }
        ensures { ResolvesMap len load_factor resolver out.entry out.exit result }
    {
        let Place {
            out,
            start,
            pos,
            ..
        } = out;
        let table = Place::<ArchivedHashTable<ArchivedU32>>::within(&mut *out, start, pos);
        ArchivedHashTable::resolve_from_len(len, load_factor, resolver.table, table)?;
        let link = Place::within(out, start + 12, pos.saturating_add(12));
        emplace_link(resolver.entries, link)
    }
}
