//! Steps over the entries of a map whose values may be written over.
ghost use Rattle.std.specs.Prelude.{IfSome};
ghost use Rattle.archive_btree_maps.specs.Calls.Cursors.{CanLend, IsWalkOver, WalkPasses};

use crate::nodes::{EntryAt, EntryWalk};
use archive_shape::Portable;

/// Passes the next entry of a walk and returns it.
pub fn pass_entry<K: Portable, V: Portable>(walk: &mut EntryWalk, bytes: &[u8]) -> Option<EntryAt>
    requires { IsWalkOver K.Portable V.Portable bytes.now walk.old }
    ensures there { IfSome result (CanLend K.Portable V.Portable bytes.now) }
    ensures steps { WalkPasses K.Portable V.Portable bytes.now walk.old result walk.new }
{
    walk.step(bytes)
}
