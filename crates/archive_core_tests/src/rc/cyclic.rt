//! Values that lead to values of the same type, by counted pointers of a flavor.
ghost use Rattle.std.specs.Prelude.{◌≡◌, ℕ, ◌+◌, ◌-◌, ◌^◌, ◌<◌, ◌≤◌, [], ◌∷◌, length, refl};
ghost use Rattle.std.proofs.Common.{lit<, lit≤};
ghost use Rattle.archive_shape_layout.specs.Content.{Names};
ghost use Rattle.archive_shape_layout.specs.Content.Part.{at};
ghost use Rattle.archive_shape.specs.Kept.{IsWithin};
ghost use Rattle.archive_shape.specs.Checks.{Checks, Moves};
ghost use Rattle.archive_core_tests.specs.Cyclic.{loop_shape, loop_body, KnowsLoop};

use archive_forms_rc::{Flavor, check_rc_each};
use archive_shape::{Alignment, CheckBytes, Error, Portable, Shape, SharedContext};
use std::alloc::{AllocError, Global};
use std::marker::PhantomData;

/// A counted pointer to a value of this type.
#[derive_where(Clone, Copy)]
pub struct ArchivedLoop<L> {
    pub flavor: PhantomData<L>,
}

impl<L: Flavor> Portable for ArchivedLoop<L> {
    ghost SIZE = { 4 };

    ghost ALIGN = { 4 };

    ghost shape = { loop_shape };

    ghost knows = { KnowsLoop L.ALLOW_CYCLES };

    ghost named = { (1, loop_body L.ALLOW_CYCLES) ∷ [] };

    const SIZE: usize = 4;

    const ALIGN: usize = 4;

    fn shape(_alloc: Global) -> Result<Shape, AllocError> {
        Ok(Shape::Named {
            name: 1,
            size: 4,
            align: Alignment::Four,
        })
    }

    ghost sized = { refl };

    ghost aligned = { refl };

    ghost aligns = { (lit< tt, lit≤ tt) };

    ghost known = { λ names has. has 0 (1, loop_body L.ALLOW_CYCLES) (lit< tt) };
}

/// Checks the pointer at `pos`. The regions that it claims end at `room` or before.
#[cycle(cyclic)]
fn check_loop<L: Flavor, C: SharedContext>(
    alloc: Global,
    bytes: &[u8],
    pos: usize,
    context: &mut C,
    room: usize,
) -> Result<(), Error>
    requires fits { pos + 4 ≤ length bytes.now }
    requires range { IsWithin (C.kept context.old) (length bytes.now) }
    requires within { (C.kept context.old).end ≤ room }
    ensures moves { Moves (C.kept context.old) result (C.kept context.new) }
    ensures exact { (names : Names) → KnowsLoop L.ALLOW_CYCLES names
        → Checks names bytes.now (at pos loop_shape) (C.kept context.old) result (C.kept context.new) }
{
    check_rc_each::<ArchivedLoop<L>, L, C, _>(
        alloc,
        bytes,
        pos,
        context,
        |c: &mut C, p: usize| -> Result<(), Error>
            requires fits { p + 4 ≤ length bytes.now }
            requires range { IsWithin (C.kept c.old) (length bytes.now) }
            requires within { (C.kept c.old).end + 4 ≤ room }
            ensures moves { Moves (C.kept c.old) result (C.kept c.new) }
            ensures exact { (names : Names) → KnowsLoop L.ALLOW_CYCLES names
                → Checks names bytes.entry.now (at p loop_shape) (C.kept c.old) result (C.kept c.new) }
        { check_loop::<L, C>(alloc, bytes, p, c, room - 4) },
    )
}

impl<L: Flavor, C: SharedContext> CheckBytes<C> for ArchivedLoop<L> {
    fn check(alloc: Global, bytes: &[u8], pos: usize, context: &mut C) -> Result<(), Error> {
        check_loop::<L, C>(alloc, bytes, pos, context, bytes.len())
    }
}
