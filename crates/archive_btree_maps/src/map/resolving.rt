//! The write of the own bytes of a map, once the position of the root of its search tree is known.
ghost use Rattle.std.specs.Prelude.{◌≡◌, ◌+◌, ◌≤◌, length};
ghost use Rattle.archive_btree_maps.specs.Calls.Resolving.{ResolvesTree};

use crate::map::ArchivedBTreeMap;
use archive_forms_values::emplace_link;
use archive_shape::{ArchivedU32, Place, Portable};
use archive_shape_layout::Error;

/// The position of the root of a map's search tree, if the map has entries.
#[derive(Clone, Copy, Debug, PartialEq, Eq)]
pub struct BTreeMapResolver {
    pub pos: Option<usize>,
}

impl BTreeMapResolver {
    /// Returns the resolver of a map whose root lies at `pos`, or of a map without entries.
    pub const fn from_pos(pos: Option<usize>) -> Self
        ensures { result.pos ≡ pos }
    {
        BTreeMapResolver { pos }
    }
}

impl<K: Portable, V: Portable, const E: usize> ArchivedBTreeMap<K, V, E> {
    /// Writes the own bytes of a map of `len` entries, whose root the resolver has.
    ///
    /// # Errors
    ///
    /// - `LengthTooLarge` if there are more than 2^32 - 1 entries.
    /// - Otherwise `IsizeOverflow` if the offset to the root does not fit.
    pub fn resolve_from_len(
        len: usize,
        resolver: BTreeMapResolver,
        out: Place<'_, ArchivedBTreeMap<K, V, E>>,
    ) -> Result<(), Error>
        requires { out.start + 8 ≤ length out.out.now }
        ensures { ResolvesTree len resolver.pos out.entry result out.exit.0.now }
    {
        let Place {
            out,
            start,
            pos,
            ..
        } = out;
        let Ok(count) = u32::try_from(len) else {
            return Err(Error::LengthTooLarge);
        };
        emplace_link(resolver.pos, Place::within(&mut *out, start, pos))?;
        Place::<ArchivedU32>::within(out, start + 4, pos.saturating_add(4)).write(count);
        Ok(())
    }
}
