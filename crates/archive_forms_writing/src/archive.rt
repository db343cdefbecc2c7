//! `Archive` and `Serialize`, the traits of types whose values can be archived, and `ArchiveWith`, the trait of what
//! archives values of a type.
ghost use Rattle.std.specs.Prelude.{◌-◌, ◌^◌, ◌<◌};
ghost use Rattle.archive_shape_canonical.specs.Settled.{Fit};
ghost use Rattle.archive_forms_laws.specs.Spelling.{Spelling};
ghost use Rattle.archive_forms_laws.specs.Spells.{Spells};
ghost use Rattle.archive_forms_laws.specs.Serializing.{HasState, Serializes, CanResolveAt, ResolvesAt};

use archive_shape::{Allocator, Error, Place, Portable, Writer};

/// A type whose values can be archived: first the data of a value is written, and then its own bytes.
pub trait Archive {
    /// The archived form.
    type Archived: Portable;

    /// What is kept of the position of the data until the own bytes are written.
    type Resolver: Copy;

    /// The definition of how a value is archived.
    ghost spelling: { Spelling Self Self.Resolver };

    /// Writes the own bytes of the value at `out`, where the bytes are zeros. The value's data was written before.
    fn resolve(&self, resolver: Self::Resolver, out: Place<'_, Self::Archived>) -> Result<(), Error>
        requires { CanResolveAt spelling Self.Archived.shape self.now resolver out }
        ensures { ResolvesAt spelling Self.Archived.shape self.now resolver out.entry out.exit result };

    /// The layout reads what is written as the value, and it is the one archive of the value.
    ghost spells: { (fit : Fit) → Spells fit Self.Archived.shape Self.Archived.knows spelling };
}

/// A type whose values can be archived by a serializer of type `S`.
pub trait Serialize<S: Writer + Allocator>: Archive {
    /// Writes the data of the value, and returns the resolver that `resolve` takes.
    fn serialize(&self, serializer: &mut S) -> Result<Self::Resolver, Error>
        requires room { S.failures serializer.old < 2 ^ 64 - 1 }
        requires state { HasState S.pos S.known serializer.old }
        ensures { Serializes Self.spelling S.Writer self.now serializer.old serializer.new result };
}

/// Archives values of type `T`: a value alone, as its type archives it, or beside what `self` lends to it.
pub trait ArchiveWith<T> {
    /// The archived form.
    type Archived: Portable;

    /// What is kept of the position of the data until the own bytes are written.
    type Resolver: Copy;

    /// The definition of how a value is archived.
    ghost spelling: { Self → Spelling T Self.Resolver };

    /// Writes the own bytes of a value at `out`, where the bytes are zeros. The value's data was written before.
    fn resolve_with(
        &self,
        value: &T,
        resolver: Self::Resolver,
        out: Place<'_, Self::Archived>,
    ) -> Result<(), Error>
        requires { CanResolveAt (spelling self.now) Self.Archived.shape value.now resolver out }
        ensures { ResolvesAt (spelling self.now) Self.Archived.shape value.now resolver out.entry out.exit result };

    /// The layout reads what is written as the value, and it is the one archive of the value.
    ghost spells: { (with : Self) (fit : Fit) → Spells fit Self.Archived.shape Self.Archived.knows (spelling with) };
}

/// Archives values by `Archive`.
#[derive(Clone, Copy)]
pub struct ByArchive;

impl<T: Archive> ArchiveWith<T> for ByArchive {
    type Archived = T::Archived;

    type Resolver = T::Resolver;

    ghost spelling = { λ with. T.spelling };

    fn resolve_with(
        &self,
        value: &T,
        resolver: T::Resolver,
        out: Place<'_, T::Archived>,
    ) -> Result<(), Error>
        requires { CanResolveAt T.spelling T.Archived.shape value.now resolver out }
        ensures { ResolvesAt T.spelling T.Archived.shape value.now resolver out.entry out.exit result }
    {
        let Place {
            out,
            start,
            pos,
            ..
        } = out;
        value.resolve(resolver, Place::within(out, start, pos))
    }

    ghost spells = { λ with fit. T.spells fit };
}
