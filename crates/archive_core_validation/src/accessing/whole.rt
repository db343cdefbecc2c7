//! Access to a whole buffer, in a new validator.
ghost use Rattle.std.specs.Prelude.{◌≡◌, ℕ, List, length, IfOk};
ghost use Rattle.archive_shape_layout.specs.Content.{Names};
ghost use Rattle.archive_shape_layout.specs.Holds.{root_position as position_of_root};
ghost use Rattle.archive_forms_values.specs.Parts.{HasValue};
ghost use Rattle.archive_core_validation.specs.Depth.{unlimited};
ghost use Rattle.archive_core_validation.specs.Access.{Decides};

use crate::accessing::{check_pos_with_context, root_position};
use crate::{ArchiveValidator, HighValidator, SharedValidator, Validator};
use archive_shape::{CheckBytes, Error, Ref, Seal};
use std::alloc::Global;

/// Checks the value at `pos` of a buffer, with no limit of depth.
fn check_pos<T: CheckBytes<HighValidator>>(
    alloc: Global,
    bytes: &[u8],
    pos: usize,
) -> Result<(), Error>
    ensures exact { (names : Names) → T.knows names
        → Decides names bytes.now T.shape pos unlimited result }
    ensures value { (names : Names) → T.knows names
        → IfOk result (λ _. HasValue T.shape T.knows bytes.now pos) }
{
    let mut context = Validator::new(
        ArchiveValidator::new(alloc, bytes),
        SharedValidator::new(alloc),
    );
    check_pos_with_context::<T, HighValidator>(alloc, bytes, pos, &mut context)
}

/// Returns the value at `pos`, checked with no limit of depth.
///
/// Returns `InvalidSubtreePointer` with the size of a value that is not in the buffer; then `Unaligned`, or the error
/// of the check of `T`.
pub fn access_pos<'a, T: CheckBytes<HighValidator>>(
    alloc: Global,
    bytes: &'a [u8],
    pos: usize,
) -> Result<Ref<'a, T>, Error>
    ensures exact { (names : Names) → T.knows names
        → Decides names bytes.now T.shape pos unlimited result }
    ensures bytes { IfOk result (λ root. root.bytes ≡ bytes.entry) }
    ensures position { IfOk result (λ root. root.pos ≡ pos) }
    ensures value { (names : Names) → T.knows names
        → IfOk result (λ _. HasValue T.shape T.knows bytes.now pos) }
{
    check_pos::<T>(alloc, bytes, pos)?;
    Ok(Ref::new(bytes, pos))
}

/// Returns the root, checked with no limit of depth. The errors are those of `access_pos`.
pub fn access<'a, T: CheckBytes<HighValidator>>(
    alloc: Global,
    bytes: &'a [u8],
) -> Result<Ref<'a, T>, Error>
    ensures exact { (names : Names) → T.knows names
        → Decides names bytes.now T.shape (position_of_root (length bytes.now) T.shape) unlimited result }
    ensures bytes { IfOk result (λ root. root.bytes ≡ bytes.entry) }
    ensures position { IfOk result (λ root. root.pos ≡ position_of_root (length bytes.now) T.shape) }
    ensures value { (names : Names) → T.knows names
        → IfOk result (λ _. HasValue T.shape T.knows bytes.now (position_of_root (length bytes.now) T.shape)) }
{
    let pos = root_position::<T>(bytes.len());
    access_pos::<T>(alloc, bytes, pos)
}

/// Returns the value at `pos`, which may be edited. The errors are those of `access_pos`. That an error leaves the
/// buffer unchanged is proved for `access_pos`, which cannot change a byte. For this function it is tested, because no
/// clause can state what a borrowed slice holds after an `Err`.
pub fn access_pos_mut<'a, T: CheckBytes<HighValidator>>(
    alloc: Global,
    bytes: &'a mut [u8],
    pos: usize,
) -> Result<Seal<'a, T>, Error>
    ensures exact { (names : Names) → T.knows names
        → Decides names bytes.old T.shape pos unlimited result }
    ensures same_reference { IfOk result (λ root. root.bytes.ghost_name ≡ bytes.entry.ghost_name) }
    ensures bytes { IfOk result (λ root. root.bytes.now ≡ bytes.old) }
    ensures position { IfOk result (λ root. root.pos ≡ pos) }
    ensures value { (names : Names) → T.knows names
        → IfOk result (λ _. HasValue T.shape T.knows bytes.old pos) }
{
    match check_pos::<T>(alloc, bytes, pos) {
        Ok(()) => Ok(Seal::new(bytes, pos)),
        Err(refusal) => Err(refusal),
    }
}

/// Returns the root, which may be edited. The errors are those of `access_pos`. The same holds for the buffer after an
/// error as for `access_pos_mut`.
pub fn access_mut<'a, T: CheckBytes<HighValidator>>(
    alloc: Global,
    bytes: &'a mut [u8],
) -> Result<Seal<'a, T>, Error>
    ensures exact { (names : Names) → T.knows names
        → Decides names bytes.old T.shape (position_of_root (length bytes.old) T.shape) unlimited result }
    ensures same_reference { IfOk result (λ root. root.bytes.ghost_name ≡ bytes.entry.ghost_name) }
    ensures bytes { IfOk result (λ root. root.bytes.now ≡ bytes.old) }
    ensures position { IfOk result (λ root. root.pos ≡ position_of_root (length bytes.old) T.shape) }
    ensures value { (names : Names) → T.knows names
        → IfOk result (λ _. HasValue T.shape T.knows bytes.old (position_of_root (length bytes.old) T.shape)) }
{
    let pos = root_position::<T>(bytes.len());
    access_pos_mut::<T>(alloc, bytes, pos)
}
