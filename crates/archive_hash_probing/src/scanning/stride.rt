//! Marks of a whole stride, which is sixteen controls at every width of a scan.
ghost use Rattle.std.specs.Prelude.{◌≡◌, ℕ, ◌+◌, ◌<◌, ◌≤◌, length, map};
ghost use Rattle.std.specs.Simd.Lanes.{mask_l};
ghost use Rattle.archive_shape_canonical.specs.Reach.{is_empty, shown};
ghost use Rattle.archive_hash_probing.specs.Calls.{MarksTag};

use crate::scanning::bitmask::Bitmask;
use crate::scanning::scan::{MAX_GROUP_WIDTH, Scan};

/// Returns what `match_byte` marks among the sixteen controls of the stride at `position`.
#[inline(always)]
pub fn stride_matches<S: Scan>(controls: &[u8], position: usize, tag: u8) -> Bitmask
    requires tag { tag < 128 }
    requires within { position + 16 ≤ length controls.now }
    ensures { MarksTag tag (shown controls.now position) result.bits }
{
    let mut bits = 0;
    for i in 0..MAX_GROUP_WIDTH / S::WIDTH {
        let shift = i * S::WIDTH;
        let marks = S::read(controls, position + shift).match_byte(tag);
        bits |= marks.bits << shift;
    }
    Bitmask { bits }
}

/// Returns what `match_empty` marks among the sixteen controls of the stride at `position`.
#[inline(always)]
pub fn stride_empties<S: Scan>(controls: &[u8], position: usize) -> Bitmask
    requires { position + 16 ≤ length controls.now }
    ensures { result.bits ≡ mask_l (map is_empty (shown controls.now position)) }
{
    let mut bits = 0;
    for i in 0..MAX_GROUP_WIDTH / S::WIDTH {
        let shift = i * S::WIDTH;
        let marks = S::read(controls, position + shift).match_empty();
        bits |= marks.bits << shift;
    }
    Bitmask { bits }
}
