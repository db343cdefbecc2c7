//! Access in a context that the caller passes.
ghost use Rattle.std.specs.Prelude.{◌≡◌, ℕ, List, length, IfOk};
ghost use Rattle.archive_shape_layout.specs.Content.{Names};
ghost use Rattle.archive_shape_layout.specs.Holds.{Visit, OpenShared, root_position as position_of_root};
ghost use Rattle.archive_shape_layout.specs.Visited.{AllStand};
ghost use Rattle.archive_shape.specs.Kept.{IsWithin, Records};
ghost use Rattle.archive_shape.specs.Checks.{Checks, Moves};
ghost use Rattle.archive_forms_values.specs.Parts.{HasValue};
ghost use Rattle.archive_core_validation.specs.Access.{root_at, check_of};

use crate::accessing::root_position;
use archive_forms_values::check_behind_each;
use archive_shape::{ArchiveContext, CheckBytes, Error, Ref};
use std::alloc::Global;

/// Checks the value at `pos` in the range of the context: its bytes are claimed, and the regions that it leads to lie
/// before them.
///
/// Returns `InvalidSubtreePointer` with the size of a value that is not in the range; then `Unaligned`,
/// `ExceededMaximumSubtreeDepth`, or the error of the check of `T`.
pub fn check_pos_with_context<T: CheckBytes<C>, C: ArchiveContext>(
    alloc: Global,
    bytes: &[u8],
    pos: usize,
    context: &mut C,
) -> Result<(), Error>
    requires range { IsWithin (C.kept context.old) (length bytes.now) }
    ensures moves { Moves (C.kept context.old) result (C.kept context.new) }
    ensures exact { (names : Names) → T.knows names
        → Checks names bytes.now (root_at pos T.shape) (C.kept context.old) result (C.kept context.new) }
{
    check_behind_each::<T, C, _>(
        bytes,
        pos,
        context,
        |c: &mut C, p: usize| T::check(alloc, bytes, p, c),
    )
}

/// Returns the value at `pos`, checked in the range of the context. The errors are those of `check_pos_with_context`.
pub fn access_pos_with_context<'a, T: CheckBytes<C>, C: ArchiveContext>(
    alloc: Global,
    bytes: &'a [u8],
    pos: usize,
    context: &mut C,
) -> Result<Ref<'a, T>, Error>
    requires range { IsWithin (C.kept context.old) (length bytes.now) }
    ensures moves { Moves (C.kept context.old) (check_of result) (C.kept context.new) }
    ensures exact { (names : Names) → T.knows names
        → Checks names bytes.now (root_at pos T.shape) (C.kept context.old) (check_of result) (C.kept context.new) }
    ensures bytes { IfOk result (λ root. root.bytes ≡ bytes.entry) }
    ensures position { IfOk result (λ root. root.pos ≡ pos) }
    ensures value { (names : Names) (inside : List OpenShared) (before : List Visit) → T.knows names
        → Records (C.kept context.old).seen inside before
        → AllStand names bytes.now (C.kept context.old).start before
        → IfOk result (λ _. HasValue T.shape T.knows bytes.now pos) }
{
    check_pos_with_context::<T, C>(alloc, bytes, pos, context)?;
    Ok(Ref::new(bytes, pos))
}

/// Returns the root, checked in the range of the context. The errors are those of `check_pos_with_context`.
pub fn access_with_context<'a, T: CheckBytes<C>, C: ArchiveContext>(
    alloc: Global,
    bytes: &'a [u8],
    context: &mut C,
) -> Result<Ref<'a, T>, Error>
    requires range { IsWithin (C.kept context.old) (length bytes.now) }
    ensures moves { Moves (C.kept context.old) (check_of result) (C.kept context.new) }
    ensures exact { (names : Names) → T.knows names
        → Checks names bytes.now (root_at (position_of_root (length bytes.now) T.shape) T.shape) (C.kept context.old) (check_of result) (C.kept context.new) }
    ensures bytes { IfOk result (λ root. root.bytes ≡ bytes.entry) }
    ensures position { IfOk result (λ root. root.pos ≡ position_of_root (length bytes.now) T.shape) }
    ensures value { (names : Names) (inside : List OpenShared) (before : List Visit) → T.knows names
        → Records (C.kept context.old).seen inside before
        → AllStand names bytes.now (C.kept context.old).start before
        → IfOk result (λ _. HasValue T.shape T.knows bytes.now (position_of_root (length bytes.now) T.shape)) }
{
    let pos = root_position::<T>(bytes.len());
    access_pos_with_context::<T, C>(alloc, bytes, pos, context)
}
