//! `DeserializeUnsized`, the trait of what archived boxes lead to and are read back as.
ghost use Rattle.std.specs.Prelude.{◌≡◌, IfOk};
ghost use Rattle.archive_shape_layout.specs.Shape.Shape.{box};
ghost use Rattle.archive_forms_values.specs.Parts.{HasValue};
ghost use Rattle.archive_forms.specs.Calls.Forms.{DeserializesAt};

use crate::deserializing::{Deserializer, ReadBack};
use archive_forms_writing::Archive;
use archive_shape::{ArchivePointee, Error, Ref};
use std::alloc::Global;

/// A type that an archived box leads to, and that can be read back as an owned box of type `B`.
pub trait DeserializeUnsized<B: Archive>: ArchivePointee {
    /// The archived box that leads to it.
    type Boxed: ReadBack<B>;

    /// What keeps the shared values that the box leads to: `()` if there are none.
    type Pool: Deserializer;

    /// Returns a box that owns the value which the archived box leads to.
    fn deserialize_unsized(
        this: &Ref<'_, Self::Boxed>,
        alloc: Global,
        deserializer: &mut Self::Pool,
    ) -> Result<B, Error>
        requires there { HasValue Self.Boxed.shape Self.Boxed.knows this.now.bytes.now this.now.pos }
        requires kept { Self.Pool.is_of deserializer.old this.now.bytes.now }
        ensures value { DeserializesAt Self.Boxed.ReadBack this.now result }
        ensures keeps { IfOk result (λ _. Self.Pool.is_of deserializer.new this.now.bytes.now) };

    /// The box is one of the layout.
    ghost boxed: { Self.Boxed.shape ≡ box Self.pointee };
}
