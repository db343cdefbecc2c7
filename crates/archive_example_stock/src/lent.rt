//! Fields that are lent, which are archived as the fields are.
ghost use Rattle.archive_forms_laws.specs.Forms.{seen_as};
ghost use Rattle.archive_forms_laws.specs.Serializing.{CanResolveAt, ResolvesAt};
ghost use Rattle.archive_forms_laws.proofs.Views.{seen_spells};

use archive_core::{Allocator, Archive, Error, Place, Serialize, Writer};

/// A field that is lent.
#[derive_where(Clone, Copy)]
pub struct Lent<'a, T>(pub &'a T);

impl<'a, T: Archive> Archive for Lent<'a, T> {
    type Archived = T::Archived;

    type Resolver = T::Resolver;

    ghost spelling = { seen_as (λ lent. lent.0.now) T.spelling };

    fn resolve(&self, resolver: T::Resolver, out: Place<'_, T::Archived>) -> Result<(), Error>
        requires { CanResolveAt (seen_as (λ lent. lent.0.now) T.spelling) T.Archived.shape self.now resolver out }
        ensures { ResolvesAt (seen_as (λ lent. lent.0.now) T.spelling) T.Archived.shape self.now resolver
            out.entry out.exit result }
    {
        let Place {
            out,
            start,
            pos,
            ..
        } = out;
        self.0.resolve(resolver, Place::within(out, start, pos))
    }

    ghost spells = { λ fit. seen_spells fit T.Archived.shape T.Archived.knows (λ lent. lent.0.now) T.spelling (T.spells fit) };
}

impl<'a, S: Writer + Allocator, T: Serialize<S>> Serialize<S> for Lent<'a, T> {
    fn serialize(&self, serializer: &mut S) -> Result<T::Resolver, Error> {
        self.0.serialize(serializer)
    }
}
