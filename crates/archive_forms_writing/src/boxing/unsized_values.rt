//! `ArchiveUnsized` and `SerializeUnsized`, the traits of what a pointer can lead to.
ghost use Rattle.std.specs.Prelude.{◌≡◌, ℕ, ◌-◌, ◌^◌, ◌<◌};
ghost use Rattle.archive_shape_layout.specs.Shape.Shape.{box};
ghost use Rattle.archive_shape_canonical.specs.Settled.{Fit};
ghost use Rattle.archive_forms_laws.specs.Spelling.{Spelling};
ghost use Rattle.archive_forms_laws.specs.Spells.{Spells, SpellsBehind};
ghost use Rattle.archive_forms_laws.specs.Serializing.{HasState, Serializes};
ghost use Rattle.archive_forms_writing.specs.Pointed.{box_of};
ghost use Rattle.archive_forms_writing.specs.Calls.Resolving.{CanResolveBoxOf, ResolvesBoxOf};

use archive_forms_values::BoxResolver;
use archive_shape::{Allocator, ArchivePointee, Error, Place, Portable, Writer};

/// A type of borrowed values that an archived pointer can lead to.
pub trait ArchiveUnsized {
    /// The type that the archived pointer leads to.
    type Archived: ArchivePointee;

    /// The archived box of the value.
    type Boxed: Portable;

    /// The number of elements, or of bytes of a text. It is 1 for a value of a fixed size.
    ghost count: { Self → ℕ };

    /// The definition of how a pointer to the value is archived. Its resolver is the position that the pointer leads
    /// to.
    ghost pointed: { Spelling Self ℕ };

    /// Writes the own bytes of the box at `out`, where the bytes are zeros. The value and its data were written before.
    fn resolve_box(&self, resolver: BoxResolver, out: Place<'_, Self::Boxed>) -> Result<(), Error>
        requires { CanResolveBoxOf Self.Archived.pointee pointed self.now resolver out }
        ensures { ResolvesBoxOf Self.Archived.pointee pointed self.now resolver out.entry out.exit result };

    /// The box is one of the layout.
    ghost boxed: { Self.Boxed.shape ≡ box Self.Archived.pointee };

    /// The layout reads what is written as the pointer, and it is the one archive of the pointer.
    ghost spells: { (fit : Fit) → Spells fit Self.Boxed.shape Self.Boxed.knows pointed };

    /// The same is true of what the pointer leads to, at that position.
    ghost behind: { (fit : Fit) (x : Self) → SpellsBehind fit Self.Archived.pointee Self.Boxed.knows count pointed x };
}

/// A type of borrowed values that a pointer can lead to and that can be archived by a serializer of type `S`.
pub trait SerializeUnsized<S: Writer + Allocator>: ArchiveUnsized {
    /// Writes the data of the value, and then the value itself. Returns its position.
    fn serialize_unsized(&self, serializer: &mut S) -> Result<usize, Error>
        requires room { S.failures serializer.old < 2 ^ 64 - 1 }
        requires state { HasState S.pos S.known serializer.old }
        ensures { Serializes Self.pointed S.Writer self.now serializer.old serializer.new result };
}

/// Writes what the box of a borrowed value leads to, with its data, and returns the resolver of the box.
pub fn serialize_from_ref<U: SerializeUnsized<S>, S: Writer + Allocator>(
    value: &U,
    serializer: &mut S,
) -> Result<BoxResolver, Error>
    requires room { S.failures serializer.old < 2 ^ 64 - 1 }
    requires state { HasState S.pos S.known serializer.old }
    ensures { Serializes (box_of U.pointed) S.Writer value.now serializer.old serializer.new result }
{
    let pos = value.serialize_unsized(serializer)?;
    Ok(BoxResolver { pos })
}

/// Writes the own bytes of the box of a borrowed value. The value and its data were written before.
pub fn resolve_from_ref<U: ArchiveUnsized>(
    value: &U,
    resolver: BoxResolver,
    out: Place<'_, U::Boxed>,
) -> Result<(), Error>
    requires { CanResolveBoxOf U.Archived.pointee U.pointed value.now resolver out }
    ensures { ResolvesBoxOf U.Archived.pointee U.pointed value.now resolver out.entry out.exit result }
{
    let Place {
        out,
        start,
        pos,
        ..
    } = out;
    value.resolve_box(resolver, Place::within(out, start, pos))
}
