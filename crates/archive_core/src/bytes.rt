//! The writing of values as whole archives.
ghost use Rattle.std.specs.Prelude.{◌≡◌, ℕ, ◌-◌, ◌^◌, ◌<◌, IfOk};
ghost use Rattle.archive_core.specs.Written.{ArchivesIn, HoldsAccepted, HoldsArchive, IsAcceptedUnshared, MakesBytes, MadeArchive};

use archive_core_serializing::{HighSerializer, Serializer, Share};
use archive_forms_writing::{Serialize, serialize_using};
use archive_shape::{Allocator, Error, Writer};
use std::alloc::Global;

/// Writes the data of a value and then its own bytes, as the root at the end of an archive, with memory of `allocator`.
/// Returns the writer, which is dropped on an error.
pub fn to_bytes_in_with_alloc<
    T: Serialize<HighSerializer<W, A>>,
    W: Writer + Drop,
    A: Allocator + Drop,
>(value: &T, writer: W, allocator: A) -> Result<W, Error>
    requires room { W.failures writer < 2 ^ 64 - 1 }
    ensures writes { ArchivesIn T.Archived.shape T.spelling W.Writer value.now writer result }
    ensures archive { IfOk result (HoldsArchive T.Archived.shape T.spelling W.Writer value.now writer T.Archived.knows) }
    ensures accepted { IfOk result (HoldsAccepted T.Archived.shape W.Writer writer T.Archived.knows) }
{
    let sharing = Share::new(allocator.memory());
    let mut serializer = Serializer::new(writer, allocator, sharing);
    serialize_using(value, &mut serializer)?;
    Ok(serializer.into_writer())
}

/// Writes the data of a value and then its own bytes, as the root at the end of an archive. Returns the writer, which
/// is dropped on an error.
pub fn to_bytes_in<T: Serialize<HighSerializer<W, Global>>, W: Writer + Drop>(
    alloc: Global,
    value: &T,
    writer: W,
) -> Result<W, Error>
    requires room { W.failures writer < 2 ^ 64 - 1 }
    ensures writes { ArchivesIn T.Archived.shape T.spelling W.Writer value.now writer result }
    ensures archive { IfOk result (HoldsArchive T.Archived.shape T.spelling W.Writer value.now writer T.Archived.knows) }
    ensures accepted { IfOk result (HoldsAccepted T.Archived.shape W.Writer writer T.Archived.knows) }
{
    to_bytes_in_with_alloc::<T, W, Global>(value, writer, alloc)
}

/// Returns the archive of a value. The memory for writing it comes from `allocator`, and that for its bytes from
/// `alloc`.
pub fn to_bytes_with_alloc<T: Serialize<HighSerializer<Vec<u8>, A>>, A: Allocator + Drop>(
    alloc: Global,
    value: &T,
    allocator: A,
) -> Result<Vec<u8>, Error>
    ensures bytes { MakesBytes T.Archived.shape T.spelling value.now (λ bytes. bytes.items) result }
    ensures archive { IfOk result (λ bytes. MadeArchive T.Archived.shape T.Archived.knows T.spelling value.now bytes.items) }
    ensures accepted { IfOk result (λ bytes.
        IsAcceptedUnshared T.Archived.shape T.Archived.knows bytes.items) }
{
    to_bytes_in_with_alloc::<T, Vec<u8>, A>(value, Vec::new(alloc), allocator)
}

/// Returns the archive of a value, with all memory from `alloc`.
pub fn to_bytes<T: Serialize<HighSerializer<Vec<u8>, Global>>>(
    alloc: Global,
    value: &T,
) -> Result<Vec<u8>, Error>
    ensures bytes { MakesBytes T.Archived.shape T.spelling value.now (λ bytes. bytes.items) result }
    ensures archive { IfOk result (λ bytes. MadeArchive T.Archived.shape T.Archived.knows T.spelling value.now bytes.items) }
    ensures accepted { IfOk result (λ bytes.
        IsAcceptedUnshared T.Archived.shape T.Archived.knows bytes.items) }
{
    to_bytes_with_alloc::<T, Global>(alloc, value, alloc)
}
