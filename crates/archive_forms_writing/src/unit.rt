//! The archiving of values that have no bytes.
ghost use Rattle.archive_shape_layout.specs.Shape.Shape.{tuple};
ghost use Rattle.archive_shape_layout.specs.Shape.Shapes.{no_shapes};
ghost use Rattle.archive_forms_laws.specs.Fields.{unit_spelling};
ghost use Rattle.archive_forms_laws.proofs.Fields.{unit_spells};
ghost use Rattle.archive_forms_laws.specs.Serializing.{CanResolveAt, ResolvesAt};

use crate::{Archive, Serialize};
use archive_shape::{Allocator, Error, Place, Writer};
use std::marker::PhantomData;

impl Archive for () {
    type Archived = ();

    type Resolver = ();

    ghost spelling = { unit_spelling };

    fn resolve(&self, _resolver: (), out: Place<'_, ()>) -> Result<(), Error>
        requires { CanResolveAt unit_spelling (tuple no_shapes) self.now tt out }
        ensures { ResolvesAt unit_spelling (tuple no_shapes) self.now tt out.entry out.exit result }
    {
        let Place { .. } = out;
        Ok(())
    }

    ghost spells = { λ fit. unit_spells fit _ };
}

impl<S: Writer + Allocator> Serialize<S> for () {
    fn serialize(&self, _serializer: &mut S) -> Result<(), Error> {
        Ok(())
    }
}

impl<T> Archive for PhantomData<T> {
    type Archived = PhantomData<T>;

    type Resolver = ();

    ghost spelling = { unit_spelling };

    fn resolve(&self, _resolver: (), out: Place<'_, PhantomData<T>>) -> Result<(), Error>
        requires { CanResolveAt unit_spelling (tuple no_shapes) self.now tt out }
        ensures { ResolvesAt unit_spelling (tuple no_shapes) self.now tt out.entry out.exit result }
    {
        let Place { .. } = out;
        Ok(())
    }

    ghost spells = { λ fit. unit_spells fit _ };
}

impl<S: Writer + Allocator, T> Serialize<S> for PhantomData<T> {
    fn serialize(&self, _serializer: &mut S) -> Result<(), Error> {
        Ok(())
    }
}
