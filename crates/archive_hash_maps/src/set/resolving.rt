//! Writes the own bytes of a set, once the position of its controls is known.
ghost use Rattle.std.specs.Prelude.{◌+◌, ◌≤◌, length};
ghost use Rattle.archive_hash_maps.specs.Calls.Tables.{ResolvesTable};

use crate::map::{ArchivedHashMap, HashMapResolver, HashTableResolver};
use crate::set::ArchivedHashSet;
use archive_shape::{Place, Portable};
use archive_shape_layout::Error;

/// The position of the controls of a set's table, if the table has places.
#[derive(Clone, Copy, Debug, PartialEq, Eq)]
pub struct HashSetResolver {
    pub table: HashTableResolver,
}

impl<K: Portable, H> ArchivedHashSet<K, H> {
    /// Writes the own bytes of the set of `len` keys, as `ArchivedHashMap::resolve_from_len` writes those of a map.
    ///
    /// # Errors
    /// The errors of `ArchivedHashMap::resolve_from_len`.
    pub fn resolve_from_len(
        len: usize,
        load_factor: (usize, usize),
        resolver: HashSetResolver,
        out: Place<'_, ArchivedHashSet<K, H>>,
    ) -> Result<(), Error>
        requires { out.start + 12 ≤ length out.out.now }
        ensures { ResolvesTable len load_factor resolver.table.pos out.entry out.exit.0.now result }
    {
        let Place {
            out,
            start,
            pos,
            ..
        } = out;
        let map = HashMapResolver {
            table: resolver.table,
        };
        let place = Place::<ArchivedHashMap<K, (), H>>::within(out, start, pos);
        ArchivedHashMap::resolve_from_len(len, load_factor, map, place)
    }
}
