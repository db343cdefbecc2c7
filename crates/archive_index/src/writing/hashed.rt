//! Writes index maps of entries and their hashes.
ghost use Rattle.std.specs.Prelude.{◌≡◌, ◌-◌, ◌^◌, ◌<◌, length};
ghost use Rattle.archive_forms_laws.specs.Sample.{number_spelling};
ghost use Rattle.archive_forms_laws.specs.Serializing.{HasState, Serializes, SerializesBy};
ghost use Rattle.archive_forms_writing.specs.Steps.{StepTakes, StepWrites};
ghost use Rattle.archive_hash_probing.specs.Loads.{IsLoadFactor};
ghost use Rattle.archive_hash_writing.specs.IndexResolvers.{written_map};

use crate::writing::numbers::numbers_below;
use archive_forms_writing::{ArchiveWith, ByArchive, serialize_element, serialize_slice_with_each};
use archive_hash::{HashTableResolver, serialize_hashed};
use archive_hash_probing::{Scan, capacity_for_len};
use archive_hash_writing::index::IndexMapResolver;
use archive_shape::{Allocator, ArchivedU32, Error, Writer};
use std::marker::PhantomData;

/// Writes the index map of entries, of which `entries[i]` has the hash `hashes[i]`: first the table of their numbers, by
/// the hashes, and then the entries in order, after their data, which `step` writes. The entries are archived by `with`.
pub(crate) fn serialize_hashed_map<
    G: Scan,
    T,
    A: ArchiveWith<T>,
    S: Writer + Allocator,
    F: Fn(&T, &mut S) -> Result<(A::Resolver, PhantomData<A::Archived>), Error>,
>(
    with: &A,
    entries: &[T],
    hashes: &[u64],
    load_factor: (usize, usize),
    serializer: &mut S,
    step: F,
) -> Result<IndexMapResolver, Error>
    requires load { IsLoadFactor load_factor }
    requires even { length hashes.now ≡ length entries.now }
    requires room { S.failures serializer.old < 2 ^ 64 - 1 }
    requires state { HasState S.pos S.known serializer.old }
    requires takes { StepTakes F.Fn S.Writer step entries.now }
    requires writes { StepWrites F.Fn (λ q. q.0) (A.spelling with.now) S.Writer step }
    ensures { Serializes (written_map load_factor A.Archived.shape (A.spelling with.now) hashes.now) S.Writer
        entries.now serializer.old serializer.new result }
{
    let len = entries.len();
    if len == 0 {
        return Ok(IndexMapResolver {
            table: HashTableResolver { pos: None },
            entries: None,
        });
    }
    capacity_for_len(len, load_factor)?;
    let numbers = numbers_below(serializer.memory(), len)?;
    let numbers = numbers.as_slice();
    let table = serialize_hashed::<G, u32, ByArchive, S, _>(
        &ByArchive,
        numbers,
        hashes,
        load_factor,
        serializer,
        |number: &u32, s: &mut S| -> Result<((), PhantomData<ArchivedU32>), Error>
            requires room { S.failures s.old < 2 ^ 64 - 1 }
            requires state { HasState S.pos S.known s.old }
            ensures { SerializesBy (λ q. q.0) number_spelling S.Writer number.now s.old s.new result }
        { serialize_element(number, s) },
    )?;
    let pos = serialize_slice_with_each(with, entries, serializer, step)?;
    Ok(IndexMapResolver {
        table,
        entries: Some(pos),
    })
}
