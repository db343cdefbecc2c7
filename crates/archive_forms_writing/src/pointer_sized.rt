//! `usize` and `isize`, which are archived as numbers of four bytes.
ghost use Rattle.std.specs.Prelude.{true, false, ⊤};
ghost use Rattle.std.specs.Int.{w32};
ghost use Rattle.archive_shape_layout.specs.Shape.Shape.{number};
ghost use Rattle.archive_forms_laws.specs.Limits.{usize_spelling, isize_spelling};
ghost use Rattle.archive_forms_laws.proofs.Limits.{usize_spells, isize_spells};
ghost use Rattle.archive_forms_laws.specs.Serializing.{CanResolveAt, ResolvesAt};

use crate::{Archive, Serialize};
use archive_shape::{Allocator, ArchivedIsize, ArchivedUsize, Error, Place, Writer};

impl Archive for usize {
    type Archived = ArchivedUsize;

    type Resolver = ();

    ghost spelling = { usize_spelling };

    fn resolve(&self, resolver: (), out: Place<'_, ArchivedUsize>) -> Result<(), Error>
        requires { CanResolveAt usize_spelling (number w32 false) self.now tt out }
        ensures { ResolvesAt usize_spelling (number w32 false) self.now tt out.entry out.exit result }
    {
        let Place {
            out,
            start,
            pos,
            ..
        } = out;
        let Ok(native) = u32::try_from(*self) else {
            return Err(Error::LengthTooLarge);
        };
        native.resolve(resolver, Place::within(out, start, pos))
    }

    ghost spells = { λ fit. usize_spells fit (λ _. ⊤) };
}

impl<S: Writer + Allocator> Serialize<S> for usize {
    fn serialize(&self, _serializer: &mut S) -> Result<(), Error> {
        Ok(())
    }
}

impl Archive for isize {
    type Archived = ArchivedIsize;

    type Resolver = ();

    ghost spelling = { isize_spelling };

    fn resolve(&self, resolver: (), out: Place<'_, ArchivedIsize>) -> Result<(), Error>
        requires { CanResolveAt isize_spelling (number w32 true) self.now tt out }
        ensures { ResolvesAt isize_spelling (number w32 true) self.now tt out.entry out.exit result }
    {
        let Place {
            out,
            start,
            pos,
            ..
        } = out;
        let Ok(native) = i32::try_from(*self) else {
            return Err(Error::IsizeOverflow);
        };
        native.resolve(resolver, Place::within(out, start, pos))
    }

    ghost spells = { λ fit. isize_spells fit (λ _. ⊤) };
}

impl<S: Writer + Allocator> Serialize<S> for isize {
    fn serialize(&self, _serializer: &mut S) -> Result<(), Error> {
        Ok(())
    }
}
