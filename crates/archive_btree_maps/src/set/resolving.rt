//! The write of the own bytes of a set, once the position of the root of its search tree is known.
ghost use Rattle.std.specs.Prelude.{◌+◌, ◌≤◌, length};
ghost use Rattle.archive_btree_maps.specs.Calls.Resolving.{ResolvesTree};

use crate::map::ArchivedBTreeMap;
use crate::set::ArchivedBTreeSet;
use archive_shape::{Place, Portable};
use archive_shape_layout::Error;

/// The position of the root of a set's search tree, if the set has keys: the resolver of the map of its keys to `()`.
pub use crate::map::BTreeMapResolver as BTreeSetResolver;

impl<K: Portable, const E: usize> ArchivedBTreeSet<K, E> {
    /// Writes the own bytes of a set of `len` keys, whose root the resolver has.
    ///
    /// # Errors
    ///
    /// - `LengthTooLarge` if there are more than 2^32 - 1 keys.
    /// - Otherwise `IsizeOverflow` if the offset to the root does not fit.
    pub fn resolve_from_len(
        len: usize,
        resolver: BTreeSetResolver,
        out: Place<'_, ArchivedBTreeSet<K, E>>,
    ) -> Result<(), Error>
        requires { out.start + 8 ≤ length out.out.now }
        ensures { ResolvesTree len resolver.pos out.entry result out.exit.0.now }
    {
        let Place {
            out,
            start,
            pos,
            ..
        } = out;
        ArchivedBTreeMap::<K, (), E>::resolve_from_len(
            len,
            resolver,
            Place::within(out, start, pos),
        )
    }
}
