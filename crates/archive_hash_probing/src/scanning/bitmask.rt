//! Marks of lanes, as the bits of a mask.
ghost use Rattle.std.specs.Prelude.{◌≡◌, ◌↔◌, ◌^◌, ◌<◌, Bool, List, [], IsTrue};
ghost use Rattle.std.specs.Iterator.{YieldsFirst, item_count};
ghost use Rattle.std.specs.Simd.Lanes.{mask_l};
ghost use Rattle.archive_hash_probing.specs.Marks.{without_first, lanes_marked};
ghost use Rattle.archive_hash_probing.specs.Calls.{FindsLowest};

use std::iter::FusedIterator;
use std::num::NonZeroU64;

/// Eight controls as one number, or the bits of a mask.
pub type Word = u64;

/// The bits of a mask in which at least one lane is marked.
pub type NonZeroWord = NonZeroU64;

/// A mask with one bit per lane, lane i as bit i, at every width of a scan. As an iterator it returns the marked lanes
/// in ascending order.
#[derive(Clone, Copy, Debug, PartialEq, Eq)]
pub struct Bitmask {
    pub bits: Word,
    ghost fits: { bits < 2 ^ 64 },
}

impl Bitmask {
    /// The mask in which no lane is marked.
    pub const EMPTY: Bitmask = Bitmask { bits: 0 };

    /// Returns `true` if some lane is marked.
    pub fn any_bit_set(self) -> bool
        ensures { IsTrue result ↔ (0 < self.bits) }
    {
        self.bits != 0
    }

    /// Returns the lowest marked lane, or `None` if no lane is marked.
    pub fn lowest_set_bit(self) -> Option<usize>
        ensures { FindsLowest self.bits result }
    {
        let bits = NonZeroWord::new(self.bits)?;
        Some(bits.trailing_zeros() as usize)
    }

    /// Returns the mask without its lowest marked lane.
    pub fn remove_lowest_bit(self) -> Bitmask
        ensures { (marks : List Bool) → self.bits ≡ mask_l marks → result.bits ≡ mask_l (without_first marks) }
    {
        Bitmask {
            bits: self.bits & self.bits.wrapping_sub(1),
        }
    }
}

/// The default is `EMPTY`, which has no marked lane.
impl Default for Bitmask {
    ghost is_default = { λ mask. lanes_marked mask.bits ≡ [] };

    fn default() -> Bitmask {
        Bitmask::EMPTY
    }
}

impl Iterator for Bitmask {
    type Item = usize;

    ghost next_gives = { YieldsFirst (λ mask. lanes_marked mask.bits) };

    ghost remaining = { item_count (λ mask. lanes_marked mask.bits) };

    fn next(&mut self) -> Option<usize> {
        let lane = self.lowest_set_bit()?;
        *self = self.remove_lowest_bit();
        Some(lane)
    }
}

impl FusedIterator for Bitmask {}
