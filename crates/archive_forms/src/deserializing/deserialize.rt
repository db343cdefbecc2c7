//! `ReadBack` and `Deserialize`, the traits of archived values that can be read back as owned values.
ghost use Rattle.std.specs.Prelude.{IfOk};
ghost use Rattle.archive_shape_layout.specs.Value.{Value};
ghost use Rattle.archive_forms_values.specs.Parts.{HasValue};
ghost use Rattle.archive_forms.specs.Deserializing.{DeserializesBy};
ghost use Rattle.archive_forms.specs.Calls.Forms.{DeserializesAt};

use crate::deserializing::Deserializer;
use archive_forms_writing::Archive;
use archive_shape::{Error, Portable, Ref};
use std::alloc::Global;
use std::marker::PhantomData;

/// A type of archived values that can be read back as values of type `T`.
pub trait ReadBack<T>: Portable {
    /// The values that an archived value may be read back as. It is a relation, because a map with equal keys, or with
    /// keys in no order, is read back as a different map.
    ghost reads: { Value → T → Type 0 };
}

/// A type of archived values that can be read back as values of type `T`.
pub trait Deserialize<T: Archive>: ReadBack<T> {
    /// What keeps the shared values in it: `()` if there are none.
    type Pool: Deserializer;

    /// Returns a value that the archived value is read back as. The only error is `OutOfMemory`, after which the
    /// deserializer is not used again.
    fn deserialize(
        this: &Ref<'_, Self>,
        alloc: Global,
        deserializer: &mut Self::Pool,
    ) -> Result<T, Error>
        requires there { HasValue Self.shape Self.knows this.now.bytes.now this.now.pos }
        requires kept { Self.Pool.is_of deserializer.old this.now.bytes.now }
        ensures value { DeserializesAt Self.ReadBack this.now result }
        ensures keeps { IfOk result (λ _. Self.Pool.is_of deserializer.new this.now.bytes.now) };
}

/// Reads an element back. It is the step for elements that implement `Deserialize`. The result names the archived form,
/// because a closure over `T` can be passed on only if its type does.
pub fn deserialize_element<T: Archive, A: Deserialize<T>>(
    bytes: &[u8],
    pos: usize,
    alloc: Global,
    deserializer: &mut A::Pool,
) -> Result<(T, PhantomData<T::Archived>), Error>
    requires there { HasValue A.shape A.knows bytes.now pos }
    requires kept { A.Pool.is_of deserializer.old bytes.now }
    ensures value { DeserializesBy A.reads A.shape A.knows bytes.now pos (λ q. q.0) result }
    ensures keeps { IfOk result (λ _. A.Pool.is_of deserializer.new bytes.now) }
{
    let value = A::deserialize(&Ref::new(bytes, pos), alloc, deserializer)?;
    Ok((value, PhantomData))
}
