//! Checks of whole vectors, called from outside.
ghost use Rattle.std.specs.Prelude.{◌≡◌, ◌+◌, ◌≤◌, [], length, ⊤};
ghost use Rattle.std.specs.Bool.{MatchBool};
ghost use Rattle.archive_forms_values.specs.Parts.{HasValue};

use crate::forms::context::RangeContext;
use archive_forms_values::{ArchivedOption, ArchivedString, ArchivedVec};
use archive_shape::{ArchivedU32, CheckBytes, Portable};
use std::alloc::Global;

/// The greatest depth to which the timed values may nest.
const MAX_DEPTH: usize = 64;

/// Returns whether a check accepts the value at `pos`.
fn is_accepted<T: CheckBytes<RangeContext>>(alloc: Global, bytes: &[u8], pos: usize) -> bool
    requires { T.knows [] }
    ensures { MatchBool result (HasValue T.shape T.knows bytes.now pos) ⊤ }
{
    let len = bytes.len();
    let size = T::SIZE;
    if len < size || len - size < pos {
        return false;
    }
    let mut context = RangeContext::new(alloc, pos, MAX_DEPTH);
    match T::check(alloc, bytes, pos, &mut context) {
        Ok(()) => true,
        Err(_) => false,
    }
}

/// Returns whether the check of a vector of options accepts it.
#[unsafe(no_mangle)]
pub extern "C" fn archive_forms_bench_check_options(
    alloc: Global,
    bytes: &[u8],
    pos: usize,
) -> bool {
    is_accepted::<ArchivedVec<ArchivedOption<ArchivedU32>>>(alloc, bytes, pos)
}

/// Returns whether the check of a vector of texts accepts it.
#[unsafe(no_mangle)]
pub extern "C" fn archive_forms_bench_check_texts(alloc: Global, bytes: &[u8], pos: usize) -> bool {
    is_accepted::<ArchivedVec<ArchivedString>>(alloc, bytes, pos)
}

/// Returns whether the check of a vector of vectors accepts it.
#[unsafe(no_mangle)]
pub extern "C" fn archive_forms_bench_check_lists(alloc: Global, bytes: &[u8], pos: usize) -> bool {
    is_accepted::<ArchivedVec<ArchivedVec<ArchivedU32>>>(alloc, bytes, pos)
}
