//! Writes tables of items and their hashes.
ghost use Rattle.std.specs.Prelude.{◌≡◌, ◌-◌, ◌^◌, ◌<◌, length};
ghost use Rattle.archive_forms_laws.specs.Serializing.{HasState, Serializes};
ghost use Rattle.archive_forms_writing.specs.Steps.{StepTakes, StepWrites};
ghost use Rattle.archive_hash_probing.specs.Loads.{IsLoadFactor};
ghost use Rattle.archive_hash_writing.specs.Claimed.{written_spelling};

use crate::data::serialize_present_each;
use crate::fitting::fit;
use crate::places::place_items;
use crate::region::write_region;
use archive_forms_writing::ArchiveWith;
use archive_hash_maps::HashTableResolver;
use archive_hash_probing::{Scan, capacity_for_len};
use archive_shape::{Allocator, Error, Writer};
use std::marker::PhantomData;

/// Writes the table of items, of which `items[i]` has the hash `hashes[i]`: first the data of the items, which `step`
/// writes, and then the region of the table.
pub fn serialize_hashed<
    G: Scan,
    T,
    A: ArchiveWith<T>,
    S: Writer + Allocator,
    F: Fn(&T, &mut S) -> Result<(A::Resolver, PhantomData<A::Archived>), Error>,
>(
    with: &A,
    items: &[T],
    hashes: &[u64],
    load_factor: (usize, usize),
    serializer: &mut S,
    step: F,
) -> Result<HashTableResolver, Error>
    requires load { IsLoadFactor load_factor }
    requires even { length hashes.now ≡ length items.now }
    requires room { S.failures serializer.old < 2 ^ 64 - 1 }
    requires state { HasState S.pos S.known serializer.old }
    requires takes { StepTakes F.Fn S.Writer step items.now }
    requires writes { StepWrites F.Fn (λ q. q.0) (A.spelling with.now) S.Writer step }
    ensures { Serializes (written_spelling load_factor A.Archived.shape (A.spelling with.now) hashes.now) S.Writer
        items.now serializer.old serializer.new result }
{
    let capacity = capacity_for_len(items.len(), load_factor)?;
    if capacity == 0 {
        return Ok(HashTableResolver { pos: None });
    }
    let alloc = serializer.memory();
    let fitted = fit::<G>(alloc, capacity, hashes)?;
    let table = place_items(alloc, capacity, items, fitted.places.as_slice())?;
    let at_places = table.as_slice();
    let kept = serialize_present_each(with, at_places, items.len(), serializer, step)?;
    let controls = fitted.controls.as_slice();
    let to = write_region(with, at_places, kept.as_slice(), controls, serializer)?;
    Ok(HashTableResolver { pos: Some(to) })
}
