//! `Keeps`, the trait of deserializers that keep counted pointers, by the positions that archived ones lead to.
ghost use Rattle.std.specs.Prelude.{◌≡◌, ℕ, List, Option, Some, IfOk, MatchOption, MatchResult};
ghost use Rattle.std.proofs.Common.{subst, sym};
ghost use Rattle.std.specs.Rc.{rc_slice_items, rc_str_bytes};
ghost use Rattle.archive_forms.specs.Deserializing.{IsReadAt, AreReadFrom};
ghost use Rattle.archive_forms.specs.Keeping.{IsCloneOf, IsTextAt};
ghost use Rattle.archive_shape_layout.specs.declared.error.Error.TheVariants.{OutOfMemory};
ghost use Rattle.archive_forms.specs.Calls.Pools.{KeepsRead, KeepsPointer};

use crate::deserializing::{Deserializer, ReadBack};
use archive_shape::{Error, Slice, Str};
use std::rc::{Rc, RcSlice, RcStr};

/// A type that an archived counted pointer leads to, where `P` is a counted pointer to what is read back.
pub trait ReadBehind<P: Clone> {
    /// The pointer leads to what the bytes at a position are read back as.
    ghost is_read: { List ℕ → ℕ → P → Type 0 };

    /// So does each clone of it.
    ghost is_cloned: { (bytes : List ℕ) (pos : ℕ) (pointer copy : P) → P.is_clone pointer copy → is_read bytes pos pointer → is_read bytes pos copy };
}

impl<T: Drop, A: ReadBack<T>> ReadBehind<Rc<T>> for A {
    ghost is_read = { λ bytes pos pointer. IsReadAt A.reads A.shape A.knows bytes pos pointer.value };

    ghost is_cloned = { λ bytes pos pointer copy same. subst (IsReadAt A.reads A.shape A.knows bytes pos) (sym same) };
}

impl<T: Drop, A: ReadBack<T>> ReadBehind<RcSlice<T>> for Slice<A> {
    ghost is_read = { λ bytes pos pointer. AreReadFrom A.reads A.shape A.knows bytes pos (rc_slice_items pointer) };

    ghost is_cloned = { λ bytes pos pointer copy same. subst (AreReadFrom A.reads A.shape A.knows bytes pos) (sym same) };
}

impl ReadBehind<RcStr> for Str {
    ghost is_read = { λ bytes pos pointer. IsTextAt bytes pos (rc_str_bytes pointer) };

    ghost is_cloned = { λ bytes pos pointer copy same. subst (IsTextAt bytes pos) (sym same) };
}

/// A deserializer that keeps counted pointers of type `P`, where `A` is the type that the archived ones lead to.
pub trait Keeps<P: Clone, A: ReadBehind<P>>: Deserializer {
    /// The pointer that is kept for a position.
    ghost kept: { Self → ℕ → Option P };

    /// Returns a clone of the pointer that is kept for a position.
    fn clone_kept(&self, pos: usize) -> Result<Option<P>, Error>
        ensures { MatchResult result (IsCloneOf P.is_clone (kept self.now pos)) (λ e. e ≡ OutOfMemory) };

    /// Keeps a pointer to what was read at a position, in place of any that was kept for it.
    fn keep(&mut self, pos: usize, pointer: P) -> Result<(), Error>
        ensures kept { KeepsPointer (kept self.old) (kept self.new) pos pointer result }
        ensures of { KeepsRead Self.is_of A.is_read pos pointer self.old self.new result };

    /// What is kept was read from the bytes.
    ghost kept_is_read: { (deserializer : Self) (bytes : List ℕ) (pos : ℕ) (pointer : P) → Self.is_of deserializer bytes → kept deserializer pos ≡ Some pointer → A.is_read bytes pos pointer };
}

/// Keeps a clone of a pointer to what was read at a position, and returns the pointer.
pub(crate) fn keep_clone<P: Clone + Drop, A: ReadBehind<P>, D: Keeps<P, A>>(
    deserializer: &mut D,
    pos: usize,
    pointer: P,
) -> Result<P, Error>
    ensures value { MatchResult result (λ kept. kept ≡ pointer) (λ e. e ≡ OutOfMemory) }
    ensures pooled { IfOk result (λ _. MatchOption (D.kept deserializer.new pos) ⊥ (P.is_clone pointer)) }
    ensures keeps { KeepsRead D.is_of A.is_read pos pointer deserializer.old deserializer.new result }
{
    let copy = match pointer.clone() {
        Ok(copy) => copy,
        Err(_) => return Err(Error::OutOfMemory),
    };
    deserializer.keep(pos, copy)?;
    Ok(pointer)
}
