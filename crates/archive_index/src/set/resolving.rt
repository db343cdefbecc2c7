//! Writes the own bytes of an index set, once the positions of its controls and its keys are known.
ghost use Rattle.std.specs.Prelude.{◌+◌, ◌^◌, ◌<◌, ◌≤◌, length};
ghost use Rattle.archive_index.specs.Calls.Writing.{ResolvesMap};

use crate::map::ArchivedIndexMap;
use crate::set::ArchivedIndexSet;
use archive_hash_writing::index::IndexMapResolver;
use archive_shape::{Place, Portable};
use archive_shape_layout::Error;

/// The position of the controls of a set's table, and that of its first key, if the set has keys.
#[derive(Clone, Copy, Debug, PartialEq, Eq)]
pub struct IndexSetResolver {
    pub map: IndexMapResolver,
}

impl<K: Portable, H> ArchivedIndexSet<K, H> {
    /// Writes the own bytes of the set of `len` keys, as `ArchivedIndexMap::resolve_from_len` writes those of a map.
    ///
    /// # Errors
    /// The errors of `ArchivedIndexMap::resolve_from_len`.
    pub fn resolve_from_len(
        len: usize,
        load_factor: (usize, usize),
        resolver: IndexSetResolver,
        out: Place<'_, ArchivedIndexSet<K, H>>,
    ) -> Result<(), Error>
        requires room { out.start + 16 ≤ length out.out.now }
        requires stands { out.pos + 16 < 2 ^ 64 }
        ensures { ResolvesMap len load_factor resolver.map out.entry out.exit result }
    {
        let Place {
            out,
            start,
            pos,
            ..
        } = out;
        let place = Place::<ArchivedIndexMap<K, (), H>>::within(out, start, pos);
        ArchivedIndexMap::resolve_from_len(len, load_factor, resolver.map, place)
    }
}
