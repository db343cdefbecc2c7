//! `WriterExt`, with the methods of every writer.
ghost use Rattle.std.specs.Prelude.{◌≡◌, ◌+◌, ◌-◌, ◌^◌, ◌<◌, ◌≤◌, ◌++◌, IfOk};
ghost use Rattle.archive_shape_layout.specs.Bytes.{align_up};
ghost use Rattle.archive_shape_layout.specs.Shape.{align_of};
ghost use Rattle.archive_shape_layout.specs.Writing.{Writes};
ghost use Rattle.archive_shape.specs.Bytes.{zeros};
ghost use Rattle.archive_forms_laws.specs.State.{State};
ghost use Rattle.archive_forms_laws.specs.Serializing.{Lays};
ghost use Rattle.archive_forms_laws.specs.Regions.{placed_fits, placed_refused};

use archive_forms_writing::{Archive, align, pad, resolve_aligned};
use archive_shape::{Error, Portable, Writer};
use std::alloc::Global;

/// Methods of every writer.
pub trait WriterExt: Writer {
    /// Writes `padding` zeros, fewer than 32.
    fn pad(&mut self, padding: usize) -> Result<(), Error>
        requires room { Self.failures self.old < 2 ^ 64 - 1 }
        requires short { padding < 32 }
        ensures { Writes Self.Writer self.old self.new (zeros padding) result };

    /// Writes zeros up to the next multiple of `align`, and returns that position.
    fn align(&mut self, align: usize) -> Result<usize, Error>
        requires room { Self.failures self.old < 2 ^ 64 - 1 }
        requires positive { 0 < align }
        requires small { align ≤ 32 }
        ensures writes { Writes Self.Writer self.old self.new
            (zeros (align_up (Self.pos self.old) align - Self.pos self.old)) result }
        ensures aligned { IfOk result (λ pos. pos ≡ align_up (Self.pos self.old) align) };

    /// Writes zeros up to the next multiple of the alignment of `T`, and returns that position.
    fn align_for<T: Portable>(&mut self) -> Result<usize, Error>
        requires room { Self.failures self.old < 2 ^ 64 - 1 }
        ensures writes { let at = align_up (Self.pos self.old) (align_of T.shape) in Writes Self.Writer
            self.old self.new (zeros (at - Self.pos self.old)) result }
        ensures aligned { IfOk result (λ pos. pos ≡ align_up (Self.pos self.old) (align_of T.shape)) };

    /// Writes zeros up to the next multiple of the alignment of the archived form, and there the own bytes of a value.
    /// The value's data was written before. Returns the position of the own bytes.
    fn resolve_aligned<T: Archive>(
        &mut self,
        alloc: Global,
        value: &T,
        resolver: T::Resolver,
    ) -> Result<usize, Error>
        requires room { Self.failures self.old < 2 ^ 64 - 1 }
        requires made { (st : State) × (resolver ≡ T.spelling.resolver value.now st) }
        ensures { let at = align_up (Self.pos self.old) (align_of T.Archived.shape) in
            Lays Self.Writer self.old self.new (zeros (at - Self.pos self.old) ++ T.spelling.own value.now resolver at)
            (λ pos. (pos ≡ at) × placed_fits T.spelling T.Archived.shape value.now resolver at)
            (placed_refused T.spelling T.Archived.shape value.now resolver at) result };
}

impl<W: Writer> WriterExt for W {
    fn pad(&mut self, padding: usize) -> Result<(), Error> {
        pad(self, padding)
    }

    fn align(&mut self, align_to: usize) -> Result<usize, Error> {
        align(self, align_to)
    }

    fn align_for<T: Portable>(&mut self) -> Result<usize, Error> {
        align(self, T::ALIGN)
    }

    fn resolve_aligned<T: Archive>(
        &mut self,
        alloc: Global,
        value: &T,
        resolver: T::Resolver,
    ) -> Result<usize, Error> {
        let pos = align(self, T::Archived::ALIGN)?;
        resolve_aligned(alloc, value, resolver, self)?;
        Ok(pos)
    }
}
