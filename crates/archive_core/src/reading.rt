//! The reading back of archives as owned values.
ghost use Rattle.std.specs.Prelude.{ℕ, length, IfOk};
ghost use Rattle.archive_shape_layout.specs.Content.{Names};
ghost use Rattle.archive_shape_layout.specs.Holds.{root_position};
ghost use Rattle.archive_forms_values.specs.Parts.{HasValue};
ghost use Rattle.archive_forms.specs.Deserializing.{Deserializes, IsReadAt};
ghost use Rattle.archive_core_validation.specs.Depth.{unlimited};
ghost use Rattle.archive_core_validation.specs.Access.{Decides};
ghost use Rattle.archive_core.specs.Written.{ReadsUnshared};

use archive_core_validation::{HighValidator, access};
use archive_forms::{Deserialize, Deserializer};
use archive_forms_writing::Archive;
use archive_shape::{CheckBytes, Error, Ref};
use std::alloc::Global;

/// Reads an archived value back as an owned value. The pointers of one place in the type share what they lead to, which
/// is read once. The only error is `OutOfMemory`.
pub fn deserialize<T: Archive, A: Deserialize<T>>(
    alloc: Global,
    value: &Ref<'_, A>,
) -> Result<T, Error>
    requires { HasValue A.shape A.knows value.now.bytes.now value.now.pos }
    ensures { Deserializes A.reads A.shape A.knows value.now.bytes.now value.now.pos result }
{
    let mut deserializer = A::Pool::new(alloc);
    A::deserialize(value, alloc, &mut deserializer)
}

/// Checks an archive, and reads its root back. The errors are those of `access`.
pub fn from_bytes<T: Archive>(alloc: Global, bytes: &[u8]) -> Result<T, Error>
where
    T::Archived: CheckBytes<HighValidator> + Deserialize<T>,
    requires named { (names : Names) × T.Archived.knows names }
    ensures exact { (names : Names) → T.Archived.knows names
        → Decides names bytes.now T.Archived.shape (root_position (length bytes.now) T.Archived.shape) unlimited result }
    ensures value { IfOk result (IsReadAt T.Archived.reads T.Archived.shape T.Archived.knows bytes.now
        (root_position (length bytes.now) T.Archived.shape)) }
    ensures written { ReadsUnshared T.Archived.shape T.Archived.knows T.spelling T.Archived.reads
        bytes.now result }
{
    let root = access::<T::Archived>(alloc, bytes)?;
    deserialize::<T, T::Archived>(alloc, &root)
}
