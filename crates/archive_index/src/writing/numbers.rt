//! The numbers of entries.
ghost use Rattle.std.specs.Prelude.{◌≡◌, ◌^◌, ◌≤◌, MatchResult};
ghost use Rattle.std.specs.List.{range_with_len};
ghost use Rattle.archive_shape_layout.specs.declared.error.Error.TheVariants.{OutOfMemory};

use archive_shape::Error;
use std::alloc::Global;

/// Returns the numbers below `len`, in order.
pub(crate) fn numbers_below(alloc: Global, len: usize) -> Result<Vec<u32>, Error>
    requires { len ≤ 2 ^ 32 }
    ensures { MatchResult result (λ all. all.items ≡ range_with_len 0 len) (λ e. e ≡ OutOfMemory) }
{
    let Ok(mut all) = Vec::with_capacity(alloc, len) else {
        return Err(Error::OutOfMemory);
    };
    for number in 0..len {
        if all.push(number as u32).is_err() {
            return Err(Error::OutOfMemory);
        }
    }
    Ok(all)
}
