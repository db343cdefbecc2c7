//! The writing of padding, and of own bytes at a writer's position.
ghost use Rattle.std.specs.Prelude.{◌≡◌, ◌+◌, ◌-◌, ◌^◌, ◌<◌, ◌≤◌, IfOk};
ghost use Rattle.archive_shape_layout.specs.Bytes.{align_up};
ghost use Rattle.archive_shape_layout.specs.Shape.{size_of};
ghost use Rattle.archive_shape_layout.specs.Writing.{Writes};
ghost use Rattle.archive_shape.specs.Bytes.{zeros};
ghost use Rattle.archive_forms_laws.specs.State.{State};
ghost use Rattle.archive_forms_writing.specs.Calls.Placing.{Aligns, ResolvesWhole, LaysOwn};

use crate::Archive;
use archive_shape::{Error, Place, Portable, Writer};
use std::alloc::Global;

const ZEROS: [u8; 32] = [0; 32];

/// Writes `padding` zeros, fewer than 32.
pub fn pad<W: Writer>(writer: &mut W, padding: usize) -> Result<(), Error>
    requires room { W.failures writer.old < 2 ^ 64 - 1 }
    requires short { padding < 32 }
    ensures { Writes W.Writer writer.old writer.new (zeros padding) result }
{
    if padding == 0 {
        return Ok(());
    }
    writer.write(&ZEROS[..padding])
}

/// Returns the number of bytes from `pos` to the next multiple of `align`.
fn padding(pos: usize, align: usize) -> usize
    requires { 0 < align }
    ensures gap { result ≡ align_up pos align - pos }
    ensures short { result < align }
{
    (align - pos % align) % align
}

/// Writes zeros up to the next multiple of `align`, and returns that position.
pub fn align<W: Writer>(writer: &mut W, align: usize) -> Result<usize, Error>
    requires room { W.failures writer.old < 2 ^ 64 - 1 }
    requires positive { 0 < align }
    requires small { align ≤ 32 }
    ensures writes { Aligns W.Writer writer.old writer.new align result }
    ensures aligned { IfOk result (λ pos. pos ≡ align_up (W.pos writer.old) align) }
{
    let pos = writer.pos();
    pad(writer, padding(pos, align))?;
    Ok(writer.pos())
}

/// Writes the own bytes of a value over `out`, which has only zeros. The value's data was written before.
fn resolve_into<T: Archive>(
    value: &T,
    resolver: T::Resolver,
    pos: usize,
    out: &mut [u8],
) -> Result<(), Error>
    requires blank { out.old ≡ zeros (size_of T.Archived.shape) }
    requires stands { pos + size_of T.Archived.shape < 2 ^ 64 }
    requires made { (st : State) × (resolver ≡ T.spelling.resolver value.now st) }
    ensures { ResolvesWhole T.spelling value.now resolver pos out.new result }
{
    value.resolve(resolver, Place::new(out, pos))
}

/// Writes the own bytes of a value at the writer's position, by way of `own`, which has only zeros. The value's data was
/// written before.
fn write_through<T: Archive, W: Writer>(
    value: &T,
    resolver: T::Resolver,
    writer: &mut W,
    own: &mut [u8],
) -> Result<(), Error>
    requires room { W.failures writer.old < 2 ^ 64 - 1 }
    requires made { (st : State) × (resolver ≡ T.spelling.resolver value.now st) }
    requires blank { own.old ≡ zeros (size_of T.Archived.shape) }
    requires stands { W.pos writer.old + size_of T.Archived.shape < 2 ^ 64 }
    ensures { LaysOwn T.spelling T.Archived.shape W.Writer value.now resolver writer.old writer.new result }
{
    resolve_into(value, resolver, writer.pos(), own)?;
    writer.write(own)
}

/// Writes the own bytes of a value at the writer's position. The value's data was written before.
///
/// Returns `PositionTooLarge` if the own bytes would end after position 2^64 - 1, and `OutOfMemory` if the allocation
/// of a buffer for them fails.
pub fn resolve_aligned<T: Archive, W: Writer>(
    alloc: Global,
    value: &T,
    resolver: T::Resolver,
    writer: &mut W,
) -> Result<(), Error>
    requires room { W.failures writer.old < 2 ^ 64 - 1 }
    requires made { (st : State) × (resolver ≡ T.spelling.resolver value.now st) }
    ensures { LaysOwn T.spelling T.Archived.shape W.Writer value.now resolver writer.old writer.new result }
{
    let size = T::Archived::SIZE;
    if writer.pos().checked_add(size).is_none() {
        return Err(Error::PositionTooLarge);
    }
    match vec![in alloc; 0u8; size] {
        Ok(mut own) => write_through(value, resolver, writer, own.as_mut_slice()),
        Err(_) => Err(Error::OutOfMemory),
    }
}
