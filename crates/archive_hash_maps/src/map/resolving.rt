//! Writes the own bytes of a table, once the position of its controls is known.
ghost use Rattle.std.specs.Prelude.{◌≡◌, ◌+◌, ◌≤◌, length};
ghost use Rattle.archive_hash_maps.specs.Calls.Tables.{ResolvesTable};

use crate::map::{ArchivedHashMap, ArchivedHashTable};
use archive_forms_values::{Entry, emplace_link};
use archive_hash_probing::capacity_for_len;
use archive_shape::{ArchivedU32, Place, Portable};
use archive_shape_layout::Error;

/// The position of the controls of a table, or `None` if the table has no places.
#[derive(Clone, Copy, Debug, PartialEq, Eq)]
pub struct HashTableResolver {
    pub pos: Option<usize>,
}

impl HashTableResolver {
    /// Creates a resolver from the position of the controls.
    pub const fn from_pos(pos: Option<usize>) -> Self
        ensures { result.pos ≡ pos }
    {
        HashTableResolver { pos }
    }
}

/// The position of the controls of a map's table, if the table has places.
#[derive(Clone, Copy, Debug, PartialEq, Eq)]
pub struct HashMapResolver {
    pub table: HashTableResolver,
}

impl<T: Portable> ArchivedHashTable<T> {
    /// Writes the own bytes of the table of `len` items, whose controls are at the resolver's position. Its number of
    /// places is that of tables of `len` items of which at most `load_factor.0` of `load_factor.1` places may be full.
    ///
    /// # Errors
    /// `InvalidLoadFactor` if no places or more than all may be full; then `LengthTooLarge` if there would be 2^32
    /// places or more; then `IsizeOverflow` if the offset to the controls does not fit.
    pub fn resolve_from_len(
        len: usize,
        load_factor: (usize, usize),
        resolver: HashTableResolver,
        out: Place<'_, ArchivedHashTable<T>>,
    ) -> Result<(), Error>
        requires { out.start + 12 ≤ length out.out.now }
        ensures { ResolvesTable len load_factor resolver.pos out.entry out.exit.0.now result }
    {
        let Place {
            out,
            start,
            pos,
            ..
        } = out;
        let capacity = capacity_for_len(len, load_factor)?;
        emplace_link(resolver.pos, Place::within(&mut *out, start, pos))?;
        Place::<ArchivedU32>::within(&mut *out, start + 4, pos.saturating_add(4)).write(len as u32);
        Place::<ArchivedU32>::within(out, start + 8, pos.saturating_add(8)).write(capacity as u32);
        Ok(())
    }
}

impl<K: Portable, V: Portable, H> ArchivedHashMap<K, V, H> {
    /// Writes the own bytes of the map of `len` entries, as `ArchivedHashTable::resolve_from_len` writes those of a
    /// table.
    ///
    /// # Errors
    /// The errors of `ArchivedHashTable::resolve_from_len`.
    pub fn resolve_from_len(
        len: usize,
        load_factor: (usize, usize),
        resolver: HashMapResolver,
        out: Place<'_, ArchivedHashMap<K, V, H>>,
    ) -> Result<(), Error>
        requires { out.start + 12 ≤ length out.out.now }
        ensures { ResolvesTable len load_factor resolver.table.pos out.entry out.exit.0.now result }
    {
        let Place {
            out,
            start,
            pos,
            ..
        } = out;
        let table = Place::<ArchivedHashTable<Entry<K, V>>>::within(out, start, pos);
        ArchivedHashTable::resolve_from_len(len, load_factor, resolver.table, table)
    }
}
