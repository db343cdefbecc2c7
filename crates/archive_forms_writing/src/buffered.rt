//! The writing of the own bytes of adjacent items, many of them at once.
ghost use Rattle.std.specs.Prelude.{◌≡◌, ◌+◌, ◌-◌, ◌*◌, ◌^◌, ◌<◌, ◌≤◌, length, take, min, IfOk, ⊤};
ghost use Rattle.std.specs.Bool.{MatchBool};
ghost use Rattle.archive_shape_layout.specs.Shape.{size_of};
ghost use Rattle.archive_shape_layout.specs.Writing.{Writes};
ghost use Rattle.archive_shape.specs.Bytes.{HasBytes, zeros};
ghost use Rattle.archive_forms_laws.specs.State.{State};
ghost use Rattle.archive_forms_laws.specs.Regions.{resolvers};
ghost use Rattle.archive_forms_writing.specs.Calls.Items.{FitAtOnce, ResolvesInBuffer, FillsBuffer, LaysOwns};

use crate::ArchiveWith;
use archive_shape::{Error, Place, Portable, Writer};

/// Writes the own bytes of a value at `start` of a buffer, where the bytes are zeros. The buffer will be at position
/// `pos` of the archive. The value's data was written before.
fn resolve_at<T, A: ArchiveWith<T>>(
    with: &A,
    value: &T,
    resolver: A::Resolver,
    pos: usize,
    buffer: &mut [u8],
    start: usize,
) -> Result<(), Error>
    requires made { (st : State) × (resolver ≡ (A.spelling with.now).resolver value.now st) }
    requires room { start + size_of A.Archived.shape ≤ length buffer.old }
    requires stands { pos + start + size_of A.Archived.shape < 2 ^ 64 }
    requires blank { HasBytes buffer.old start (zeros (size_of A.Archived.shape)) }
    ensures { ResolvesInBuffer (A.spelling with.now) A.Archived.shape value.now resolver pos start buffer.old buffer.new result }
{
    with.resolve_with(value, resolver, Place::within(buffer, start, pos + start))
}

/// Returns the number of bytes, of `len` that begin at position `pos`, that end before position 2^64.
fn room_at(len: usize, pos: usize) -> usize
    ensures { result ≡ min len (2 ^ 64 - 1 - pos) }
{
    let rest = usize::MAX - pos;
    if rest < len { rest } else { len }
}

/// Writes the own bytes of adjacent items over a buffer of zeros, which will be at position `pos` of the archive. Their
/// data was written before. Returns the number of bytes written.
fn resolve_all<T, A: ArchiveWith<T>>(
    with: &A,
    items: &[T],
    kept: &[A::Resolver],
    pos: usize,
    buffer: &mut [u8],
) -> Result<usize, Error>
    requires made { (st : State) × (kept.now ≡ resolvers (A.spelling with.now) items.now st) }
    requires room { length items.now * size_of A.Archived.shape ≤ length buffer.old }
    requires stands { pos + length items.now * size_of A.Archived.shape < 2 ^ 64 }
    requires blank { buffer.old ≡ zeros (length buffer.old) }
    ensures { FillsBuffer (A.spelling with.now) A.Archived.shape items.now kept.now pos buffer.new result }
{
    let _len = buffer.len();
    let size = A::Archived::SIZE;
    let mut filled = 0;
    for (i, item) in items.iter().enumerate() {
        resolve_at(with, item, kept[i], pos, buffer, filled)?;
        filled += size;
    }
    Ok(filled)
}

/// Writes the first `filled` bytes of a buffer, and then fills the buffer with zeros.
fn flush<W: Writer>(writer: &mut W, buffer: &mut [u8], filled: usize) -> Result<(), Error>
    requires room { W.failures writer.old < 2 ^ 64 - 1 }
    requires within { filled ≤ length buffer.old }
    ensures writes { Writes W.Writer writer.old writer.new (take filled buffer.old) result }
    ensures blank { IfOk result (λ _. buffer.new ≡ zeros (length buffer.old)) }
{
    writer.write(&buffer[..filled])?;
    buffer.fill(0);
    Ok(())
}

/// Writes the own bytes of adjacent items through a buffer of zeros. Their data was written before.
#[inline(always)]
pub(crate) fn resolve_through<T, A: ArchiveWith<T>, W: Writer>(
    with: &A,
    items: &[T],
    kept: &[A::Resolver],
    writer: &mut W,
    buffer: &mut [u8],
) -> Result<(), Error>
    requires room { W.failures writer.old < 2 ^ 64 - 1 }
    requires made { (st : State) × (kept.now ≡ resolvers (A.spelling with.now) items.now st) }
    requires blank { buffer.old ≡ zeros (length buffer.old) }
    requires wide { size_of A.Archived.shape ≤ length buffer.old }
    ensures { LaysOwns (A.spelling with.now) A.Archived.shape W.Writer items.now kept.now writer.old writer.new result }
{
    let len = buffer.len();
    let size = A::Archived::SIZE;
    let mut base = writer.pos();
    let mut room = room_at(len, base);
    let mut filled = 0;
    for (i, item) in items.iter().enumerate() {
        if room - filled < size {
            flush(writer, buffer, filled)?;
            filled = 0;
            base = writer.pos();
            room = room_at(len, base);
            if room < size {
                return Err(Error::PositionTooLarge);
            }
        }
        resolve_at(with, item, kept[i], base, buffer, filled)?;
        filled += size;
    }
    writer.write(&buffer[..filled])
}

/// The number of own bytes up to which they are written at once.
const BUFFER_LEN: usize = 64;

/// The last position at which `BUFFER_LEN` bytes may begin.
const LAST_BUFFER_POSITION: usize = usize::MAX - BUFFER_LEN;

/// Returns `true` only if `count` adjacent elements have at most `BUFFER_LEN` bytes and end before position 2^64 where they
/// begin at `pos`.
pub(crate) fn are_few<T: Portable>(count: usize, pos: usize) -> bool
    ensures { MatchBool result (FitAtOnce (size_of T.shape) BUFFER_LEN count pos) ⊤ }
{
    let size = T::SIZE;
    let whole = count.saturating_mul(size);
    if whole > BUFFER_LEN {
        return false;
    }
    if pos > LAST_BUFFER_POSITION {
        return false;
    }
    true
}

/// Writes the own bytes of adjacent items, which are at most `BUFFER_LEN` bytes, at once. Their data was written before.
pub(crate) fn resolve_at_once<T, A: ArchiveWith<T>, W: Writer>(
    with: &A,
    items: &[T],
    kept: &[A::Resolver],
    writer: &mut W,
) -> Result<(), Error>
    requires room { W.failures writer.old < 2 ^ 64 - 1 }
    requires made { (st : State) × (kept.now ≡ resolvers (A.spelling with.now) items.now st) }
    requires few { length items.now * size_of A.Archived.shape ≤ BUFFER_LEN }
    requires stands { W.pos writer.old + length items.now * size_of A.Archived.shape < 2 ^ 64 }
    ensures { LaysOwns (A.spelling with.now) A.Archived.shape W.Writer items.now kept.now writer.old writer.new result }
{
    let mut buffer = [0; BUFFER_LEN];
    let filled = resolve_all(with, items, kept, writer.pos(), &mut buffer)?;
    writer.write(&buffer[..filled])
}
