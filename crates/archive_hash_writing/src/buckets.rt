//! Writes the buckets of a table: the own bytes of the item at each place, from the last place down to the first.
ghost use Rattle.std.specs.Prelude.{◌≡◌, ◌+◌, ◌-◌, ◌*◌, ◌^◌, ◌<◌, ◌≤◌, length};
ghost use Rattle.archive_shape_layout.specs.Shape.{size_of};
ghost use Rattle.archive_shape.specs.Bytes.{zeros};
ghost use Rattle.archive_forms_laws.specs.Serializing.{CanResolve, Resolves};
ghost use Rattle.archive_hash_writing.specs.Laying.{MakesRoom};
ghost use Rattle.archive_hash_writing.specs.Calls.{AreMade, WritesBuckets};

use archive_forms_writing::ArchiveWith;
use archive_shape::{Allocator, Error, Place, Portable, Writer};

/// The number of bytes of buckets that are written at once.
const BUFFER: usize = 256;

/// Makes room for `size` bytes after the first `filled` bytes of a buffer, which are in use. If there is no room, those
/// are written and the whole buffer is set to zero. Returns the number of bytes that are then in use.
fn make_room<W: Writer>(
    writer: &mut W,
    buffer: &mut [u8],
    filled: usize,
    size: usize,
) -> Result<usize, Error>
    requires room { W.failures writer.old < 2 ^ 64 - 1 }
    requires within { filled ≤ length buffer.old }
    ensures { MakesRoom W.Writer size filled buffer.old buffer.new writer.old writer.new result }
{
    if buffer.len() - filled >= size {
        return Ok(filled);
    }
    writer.write(&buffer[..filled])?;
    buffer.fill(0);
    Ok(0)
}

/// Writes the own bytes of an item, whose data is already written, at `start` of a buffer. The buffer is zero there,
/// and will itself be written so that these bytes are at position `pos`.
fn resolve_bucket<T, A: ArchiveWith<T>>(
    with: &A,
    item: &T,
    resolver: A::Resolver,
    start: usize,
    pos: usize,
    buffer: &mut [u8],
) -> Result<(), Error>
    requires { CanResolve (A.spelling with.now) A.Archived.shape item.now resolver buffer.old start pos }
    ensures { Resolves (A.spelling with.now) A.Archived.shape item.now resolver pos start buffer.old buffer.new
        result }
{
    with.resolve_with(item, resolver, Place::within(buffer, start, pos))
}

/// Writes the buckets of a table, whose items' data is already written. The buffer that they pass through begins as
/// zeros.
fn write_through<'a, T, A: ArchiveWith<T>, W: Writer>(
    with: &A,
    table: &[Option<&'a T>],
    kept: &[A::Resolver],
    writer: &mut W,
    buffer: &mut [u8],
) -> Result<(), Error>
    requires room { W.failures writer.old < 2 ^ 64 - 1 }
    requires made { AreMade (A.spelling with.now) table.now kept.now }
    requires blank { buffer.old ≡ zeros (length buffer.old) }
    requires wide { size_of A.Archived.shape ≤ length buffer.old }
    requires stands { W.pos writer.old + length table.now * size_of A.Archived.shape < 2 ^ 64 }
    ensures { WritesBuckets (A.spelling with.now) table.now kept.now A.Archived.shape W.Writer writer.old writer.new result }
{
    let _len = buffer.len();
    let size = A::Archived::SIZE;
    let mut left = kept.len();
    let mut filled = 0;
    for p in (0..table.len()).rev() {
        filled = make_room(writer, buffer, filled, size)?;
        if let Some(item) = table[p] {
            left -= 1;
            let pos = writer.pos() + filled;
            resolve_bucket(with, item, kept[left], filled, pos, buffer)?;
        }
        filled += size;
    }
    writer.write(&buffer[..filled])
}

/// Writes the buckets of a table, whose items' data is already written. They end before position 2^64. Items larger
/// than the buffer of 256 bytes use a buffer from the serializer's memory; `OutOfMemory` if its allocation fails.
pub(crate) fn write_buckets<'a, T, A: ArchiveWith<T>, S: Writer + Allocator>(
    with: &A,
    table: &[Option<&'a T>],
    kept: &[A::Resolver],
    serializer: &mut S,
) -> Result<(), Error>
    requires room { S.failures serializer.old < 2 ^ 64 - 1 }
    requires made { AreMade (A.spelling with.now) table.now kept.now }
    requires some { 0 < length table.now }
    requires stands { S.pos serializer.old + length table.now * size_of A.Archived.shape < 2 ^ 64 }
    ensures { WritesBuckets (A.spelling with.now) table.now kept.now A.Archived.shape S.Writer
        serializer.old serializer.new result }
{
    let size = A::Archived::SIZE;
    if size <= BUFFER {
        let mut buffer = [0; BUFFER];
        return write_through(with, table, kept, serializer, &mut buffer);
    }
    match vec![in serializer.memory(); 0u8; size] {
        Ok(mut buffer) => write_through(with, table, kept, serializer, buffer.as_mut_slice()),
        Err(_) => Err(Error::OutOfMemory),
    }
}
