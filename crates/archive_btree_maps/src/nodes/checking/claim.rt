//! The claim of a node's bytes.
ghost use Rattle.std.specs.Prelude.{◌^◌, ◌<◌};
ghost use Rattle.archive_btree_maps.specs.Calls.Checking.{ClaimsNode};

use archive_shape::{ArchiveContext, Error, PushedRange};

/// Claims `size` bytes at `pos`, so that what is claimed next has to lie before them.
pub(crate) fn claim_node<C: ArchiveContext>(
    pos: usize,
    size: usize,
    align: usize,
    context: &mut C,
) -> Result<PushedRange, Error>
    requires small { (C.kept context.old).end < 2 ^ 63 }
    requires aligned { 0 < align }
    ensures { ClaimsNode C.kept pos size align context.old result context.new }
{
    context.check_subtree_ptr(pos, size, align)?;
    context.push_subtree_range(pos, pos + size)
}
