//! The start of the check of what a counted pointer leads to.
ghost use Rattle.archive_forms_rc.specs.Calls.Checking.{StartsVisit};

use crate::Flavor;
use archive_shape::{ArchivePointee, Error, SharedContext, ValidationState};
use std::alloc::Global;

/// Starts the check of `len` elements at `target`, and returns `true` if they are to be checked, which is only at the
/// first visit.
///
/// Returns the context's errors, and `CyclicSharedPointer` if the pointer lies inside what it leads to and the flavor
/// forbids that. `OutOfMemory` comes from the shape or the context.
pub(crate) fn visit<P: ArchivePointee, L: Flavor, C: SharedContext>(
    alloc: Global,
    context: &mut C,
    target: usize,
    len: usize,
) -> Result<bool, Error>
    ensures { StartsVisit L.ALLOW_CYCLES C.kept target P.pointee len context.old result context.new }
{
    let pointee = P::pointee(alloc)?;
    match context.start_shared(target, len, pointee)? {
        ValidationState::Started => Ok(true),
        ValidationState::Finished => Ok(false),
        ValidationState::Pending if L::ALLOW_CYCLES => Ok(false),
        ValidationState::Pending => Err(Error::CyclicSharedPointer),
    }
}
