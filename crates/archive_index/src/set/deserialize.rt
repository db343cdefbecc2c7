//! Reads archived index sets back as the lists of their keys.
ghost use Rattle.std.specs.Prelude.{IfOk, ⊤};
ghost use Rattle.archive_forms_values.specs.Tuples.{tuple2};
ghost use Rattle.archive_forms_values.specs.Parts.{HasValue, both};
ghost use Rattle.archive_forms.specs.Deserializing.{DeserializesBy};
ghost use Rattle.archive_forms.specs.Reading.{reads_all, reads_in, reads_key};
ghost use Rattle.archive_forms.specs.Steps.{StepTakes};
ghost use Rattle.archive_index.specs.Sets.{HasSet, unit_shape};
ghost use Rattle.archive_index.specs.Calls.Reading.{StepTakesKey, DeserializesKey, DeserializesSet};
ghost use Rattle.archive_forms.specs.Calls.Steps.{StepReadsBack};

use crate::map::entries::entries;
use crate::set::ArchivedIndexSet;
use crate::set::set::as_map;
use archive_forms::{
    Deserialize, Deserializer, ReadBack, deserialize_element, deserialize_elements_each,
};
use archive_forms_values::Entry;
use archive_forms_writing::Archive;
use archive_shape::{Error, Ref};
use std::alloc::Global;
use std::marker::PhantomData;

/// Reads the entry at `pos` back as its key.
fn deserialize_key<
    K: Archive,
    A: ReadBack<K>,
    D: Deserializer,
    F: Fn(&mut D, usize) -> Result<(K, PhantomData<K::Archived>), Error>,
>(
    bytes: &[u8],
    pos: usize,
    deserializer: &mut D,
    read_key: &F,
) -> Result<(K, PhantomData<K::Archived>), Error>
    requires there { HasValue (tuple2 A.shape unit_shape) (both A.knows (λ _. ⊤)) bytes.now pos }
    requires kept { D.is_of deserializer.old bytes.now }
    requires takes_key { StepTakesKey F.Fn read_key.now A.ReadBack unit_shape D.is_of bytes.now pos }
    requires reads_key { StepReadsBack F.Fn read_key.now A.ReadBack D.is_of bytes.now }
    ensures value { DeserializesKey A.ReadBack bytes.now pos result }
    ensures keeps { IfOk result (λ _. D.is_of deserializer.new bytes.now) }
{
    read_key(deserializer, pos)
}

/// Reads a set back as its keys, in order, each by `read_key`. They are not compared: the archive of a set that was
/// checked may have equal keys, and all of them are read. Memory is allocated as keys are read. `OutOfMemory` if that
/// fails.
pub fn deserialize_index_set_each<
    K: Archive + Drop,
    A: ReadBack<K>,
    H,
    D: Deserializer,
    F: Fn(&mut D, usize) -> Result<(K, PhantomData<K::Archived>), Error>,
>(
    this: Ref<'_, ArchivedIndexSet<A, H>>,
    alloc: Global,
    deserializer: &mut D,
    read_key: F,
) -> Result<Vec<K>, Error>
    requires there { HasSet A.shape A.knows this }
    requires kept { D.is_of deserializer.old this.bytes.now }
    requires takes_key { StepTakes F.Fn read_key A.shape A.knows D.is_of this.bytes.now this.pos }
    requires reads_key { StepReadsBack F.Fn read_key A.ReadBack D.is_of this.bytes.now }
    ensures value { DeserializesSet A.ReadBack this.entry result }
    ensures keeps { IfOk result (λ _. D.is_of deserializer.new this.entry.bytes.now) }
{
    let entries = entries(as_map(this));
    let bytes = entries.bytes;
    deserialize_elements_each::<K, Entry<A, ()>, D, _>(
        entries,
        alloc,
        deserializer,
        |d: &mut D, at: usize| -> Result<(K, PhantomData<K::Archived>), Error>
            requires there { HasValue (tuple2 A.shape unit_shape) (both A.knows (λ _. ⊤)) bytes.now at }
            requires kept { D.is_of d.old bytes.now }
            requires takes_key { StepTakesKey F.Fn read_key A.ReadBack unit_shape D.is_of bytes.now at }
            requires reads_key { StepReadsBack F.Fn read_key A.ReadBack D.is_of bytes.now }
            ensures value { DeserializesKey A.ReadBack bytes.entry.now at result }
            ensures keeps { IfOk result (λ _. D.is_of d.new bytes.entry.now) }
        { deserialize_key::<K, A, D, F>(bytes, at, d, &read_key) },
    )
}

impl<K, A: ReadBack<K>, H> ReadBack<Vec<K>> for ArchivedIndexSet<A, H> {
    ghost reads = { reads_in (λ xs. xs.items) (reads_all (reads_key A.reads)) };
}

impl<K: Archive + Drop, A: Deserialize<K>, H> Deserialize<Vec<K>> for ArchivedIndexSet<A, H> {
    type Pool = A::Pool;

    fn deserialize(
        this: &Ref<'_, ArchivedIndexSet<A, H>>,
        alloc: Global,
        deserializer: &mut A::Pool,
    ) -> Result<Vec<K>, Error> {
        let bytes = this.bytes;
        deserialize_index_set_each::<K, A, H, A::Pool, _>(
            *this,
            alloc,
            deserializer,
            |d: &mut A::Pool, pos: usize| -> Result<(K, PhantomData<K::Archived>), Error>
                requires there { HasValue A.shape A.knows bytes.now pos }
                requires kept { A.Pool.is_of d.old bytes.now }
                ensures value { DeserializesBy A.reads A.shape A.knows bytes.entry.now pos (λ q. q.0) result }
                ensures keeps { IfOk result (λ _. A.Pool.is_of d.new bytes.entry.now) }
            { deserialize_element::<K, A>(bytes, pos, alloc, d) },
        )
    }
}
