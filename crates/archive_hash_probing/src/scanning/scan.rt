//! Scans of one, eight and sixteen controls at a time.
ghost use Rattle.std.specs.Prelude.{◌≡◌, ℕ, ◌+◌, ◌*◌, ◌/◌, ◌^◌, ◌<◌, ◌≤◌, List, [], ◌∷◌, length, map, take, drop, refl};
ghost use Rattle.std.specs.Int.{w64, to_le_bytes};
ghost use Rattle.std.specs.Simd.Lanes.{mask_l};
ghost use Rattle.archive_shape_canonical.specs.Reach.{is_empty};
ghost use Rattle.archive_hash_probing.specs.Scanning.{is_full};
ghost use Rattle.archive_hash_probing.specs.Calls.{MarksTag};

use crate::scanning::bitmask::{Bitmask, Word};
use crate::scanning::word::{gathered, marked, repeated, word_at};
use std::simd::prelude::*;

/// The greatest number of controls that a scan reads at once. A stride has this number of controls at every width.
pub const MAX_GROUP_WIDTH: usize = 16;

/// The scan in use, which is the widest.
pub type Group = Group16;

/// The number of controls that `Group` reads at once.
pub const WIDTH: usize = 16;

/// A scan, which reads some adjacent controls at once and marks lanes among them.
pub trait Scan: Copy {
    /// The controls that were read.
    ghost lanes: { Self → List ℕ };

    /// The number of controls that a scan reads.
    ghost WIDTH: { ℕ };

    /// The number of controls that a scan reads at once.
    const WIDTH: usize;

    /// Reads the controls from `position` on.
    fn read(controls: &[u8], position: usize) -> Self
        requires { position + WIDTH ≤ length controls.now }
        ensures { lanes result ≡ take WIDTH (drop position controls.now) };

    /// Marks every control equal to `tag`, and possibly other tags above an equal one. The lowest mark is of an equal
    /// one.
    fn match_byte(self, tag: u8) -> Bitmask
        requires { tag < 128 }
        ensures { MarksTag tag (lanes self) result.bits };

    /// Marks every empty place.
    fn match_empty(self) -> Bitmask
        ensures { result.bits ≡ mask_l (map is_empty (lanes self)) };

    /// Marks every full place.
    fn match_full(self) -> Bitmask
        ensures { result.bits ≡ mask_l (map is_full (lanes self)) };

    /// Whole reads make up a stride.
    ghost divides: { 16 / WIDTH * WIDTH ≡ 16 };
}

/// A scan of one control at a time.
#[derive(Clone, Copy)]
pub struct Group1 {
    control: u8,
}

impl Scan for Group1 {
    ghost lanes = { λ g. g.control ∷ [] };

    ghost WIDTH = { 1 };

    ghost divides = { refl };

    const WIDTH: usize = 1;

    fn read(controls: &[u8], position: usize) -> Group1 {
        Group1 {
            control: controls[position],
        }
    }

    fn match_byte(self, tag: u8) -> Bitmask {
        Bitmask {
            bits: (self.control == tag) as Word,
        }
    }

    fn match_empty(self) -> Bitmask {
        Bitmask {
            bits: (self.control >= 128) as Word,
        }
    }

    fn match_full(self) -> Bitmask {
        Bitmask {
            bits: (self.control < 128) as Word,
        }
    }
}

/// A scan of eight controls, as one word.
#[derive(Clone, Copy)]
pub struct Group8 {
    word: Word,
    ghost fits: { word < 2 ^ 64 },
}

impl Scan for Group8 {
    ghost lanes = { λ g. to_le_bytes w64 g.word };

    ghost WIDTH = { 8 };

    ghost divides = { refl };

    const WIDTH: usize = 8;

    fn read(controls: &[u8], position: usize) -> Group8 {
        Group8 {
            word: word_at(controls, position),
        }
    }

    fn match_byte(self, tag: u8) -> Bitmask {
        Bitmask {
            bits: gathered(marked(self.word ^ repeated(tag))),
        }
    }

    fn match_empty(self) -> Bitmask {
        Bitmask {
            bits: gathered(self.word & 0x8080_8080_8080_8080),
        }
    }

    fn match_full(self) -> Bitmask {
        Bitmask {
            bits: gathered(!self.word & 0x8080_8080_8080_8080),
        }
    }
}

/// A scan of sixteen controls, as lanes.
#[derive(Clone, Copy)]
pub struct Group16 {
    lanes: u8x16,
    ghost sixteen: { length lanes ≡ 16 },
}

impl Scan for Group16 {
    ghost lanes = { λ g. g.lanes };

    ghost WIDTH = { 16 };

    ghost divides = { refl };

    const WIDTH: usize = 16;

    fn read(controls: &[u8], position: usize) -> Group16 {
        Group16 {
            lanes: u8x16::from_slice(&controls[position..]),
        }
    }

    fn match_byte(self, tag: u8) -> Bitmask {
        let same = self.lanes.simd_eq(u8x16::splat(tag));
        Bitmask {
            bits: same.to_bitmask(),
        }
    }

    fn match_empty(self) -> Bitmask {
        let empty = self.lanes.simd_ge(u8x16::splat(128));
        Bitmask {
            bits: empty.to_bitmask(),
        }
    }

    fn match_full(self) -> Bitmask {
        let full = self.lanes.simd_lt(u8x16::splat(128));
        Bitmask {
            bits: full.to_bitmask(),
        }
    }
}
