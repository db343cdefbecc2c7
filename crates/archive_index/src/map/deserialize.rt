//! Reads archived index maps back as the lists of their pairs.
ghost use Rattle.std.specs.Prelude.{IfOk};
ghost use Rattle.archive_forms_values.specs.Tuples.{tuple2};
ghost use Rattle.archive_forms_values.specs.Parts.{HasValue, both};
ghost use Rattle.archive_forms.specs.Deserializing.{DeserializesBy};
ghost use Rattle.archive_forms.specs.Keeping.{both_of};
ghost use Rattle.archive_forms.specs.Reading.{reads_all, reads_in, reads_tuple2};
ghost use Rattle.archive_forms.specs.Steps.{StepTakes};
ghost use Rattle.archive_index.specs.Maps.{HasMap};
ghost use Rattle.archive_index.specs.Calls.Reading.{StepTakesKey, StepTakesValue, DeserializesPair, DeserializesMap};
ghost use Rattle.archive_forms.specs.Calls.Steps.{StepReadsBack};

use crate::map::ArchivedIndexMap;
use crate::map::entries::entries;
use archive_forms::{
    Deserialize, Deserializer, ReadBack, deserialize_element, deserialize_elements_each,
};
use archive_forms_values::{ArchivedTuple2, SliceRef};
use archive_forms_writing::Archive;
use archive_hash::value_position;
use archive_shape::{Error, Ref};
use std::alloc::Global;
use std::marker::PhantomData;

/// Reads the entry at `pos` back as its key and its value, in this order.
fn deserialize_pair<
    K: Archive + Drop,
    V: Archive,
    A: ReadBack<K>,
    B: ReadBack<V>,
    D: Deserializer,
    F: Fn(&mut D, usize) -> Result<(K, PhantomData<K::Archived>), Error>,
    G: Fn(&mut D, usize) -> Result<(V, PhantomData<V::Archived>), Error>,
>(
    bytes: &[u8],
    pos: usize,
    deserializer: &mut D,
    read_key: &F,
    read_value: &G,
) -> Result<
    (
        (K, V),
        PhantomData<ArchivedTuple2<K::Archived, V::Archived>>,
    ),
    Error,
>
    requires there { HasValue (tuple2 A.shape B.shape) (both A.knows B.knows) bytes.now pos }
    requires kept { D.is_of deserializer.old bytes.now }
    requires takes_key { StepTakesKey F.Fn read_key.now A.ReadBack B.shape D.is_of bytes.now pos }
    requires reads_key { StepReadsBack F.Fn read_key.now A.ReadBack D.is_of bytes.now }
    requires takes_value { StepTakesValue G.Fn read_value.now A.shape B.ReadBack D.is_of bytes.now pos }
    requires reads_value { StepReadsBack G.Fn read_value.now B.ReadBack D.is_of bytes.now }
    ensures value { DeserializesPair A.ReadBack B.ReadBack bytes.now pos result }
    ensures keeps { IfOk result (λ _. D.is_of deserializer.new bytes.now) }
{
    let key = read_key(deserializer, pos)?.0;
    let value = read_value(deserializer, value_position::<A, B>(bytes, pos))?.0;
    Ok(((key, value), PhantomData))
}

/// Reads a map back as the pairs of its entries, in order: the keys by `read_key`, and the values by `read_value`. Keys
/// are not compared: the archive of a map that was checked may have equal keys, and all of them are read. Memory is
/// allocated as entries are read. `OutOfMemory` if that fails.
pub fn deserialize_index_map_each<
    K: Archive + Drop,
    V: Archive + Drop,
    A: ReadBack<K>,
    B: ReadBack<V>,
    H,
    D: Deserializer,
    F: Fn(&mut D, usize) -> Result<(K, PhantomData<K::Archived>), Error>,
    G: Fn(&mut D, usize) -> Result<(V, PhantomData<V::Archived>), Error>,
>(
    this: Ref<'_, ArchivedIndexMap<A, B, H>>,
    alloc: Global,
    deserializer: &mut D,
    read_key: F,
    read_value: G,
) -> Result<Vec<(K, V)>, Error>
    requires there { HasMap A.shape B.shape A.knows B.knows this }
    requires kept { D.is_of deserializer.old this.bytes.now }
    requires takes_key { StepTakes F.Fn read_key A.shape A.knows D.is_of this.bytes.now this.pos }
    requires reads_key { StepReadsBack F.Fn read_key A.ReadBack D.is_of this.bytes.now }
    requires takes_value { StepTakes G.Fn read_value B.shape B.knows D.is_of this.bytes.now this.pos }
    requires reads_value { StepReadsBack G.Fn read_value B.ReadBack D.is_of this.bytes.now }
    ensures value { DeserializesMap A.ReadBack B.ReadBack this.entry result }
    ensures keeps { IfOk result (λ _. D.is_of deserializer.new this.entry.bytes.now) }
{
    let entries = entries(this);
    let bytes = entries.bytes;
    let pairs = SliceRef::<ArchivedTuple2<A, B>> {
        bytes,
        pos: entries.pos,
        len: entries.len,
        of: PhantomData,
    };
    deserialize_elements_each::<(K, V), ArchivedTuple2<A, B>, D, _>(
        pairs,
        alloc,
        deserializer,
        |d: &mut D, at: usize| -> Result<
            (
                (K, V),
                PhantomData<ArchivedTuple2<K::Archived, V::Archived>>,
            ),
            Error,
        >
            requires there { HasValue (tuple2 A.shape B.shape) (both A.knows B.knows) bytes.now at }
            requires kept { D.is_of d.old bytes.now }
            requires takes_key { StepTakesKey F.Fn read_key A.ReadBack B.shape D.is_of bytes.now at }
            requires reads_key { StepReadsBack F.Fn read_key A.ReadBack D.is_of bytes.now }
            requires takes_value { StepTakesValue G.Fn read_value A.shape B.ReadBack D.is_of bytes.now at }
            requires reads_value { StepReadsBack G.Fn read_value B.ReadBack D.is_of bytes.now }
            ensures value { DeserializesPair A.ReadBack B.ReadBack bytes.entry.now at result }
            ensures keeps { IfOk result (λ _. D.is_of d.new bytes.entry.now) }
        { deserialize_pair::<K, V, A, B, D, F, G>(bytes, at, d, &read_key, &read_value) },
    )
}

impl<K, V, A: ReadBack<K>, B: ReadBack<V>, H> ReadBack<Vec<(K, V)>> for ArchivedIndexMap<A, B, H> {
    ghost reads = { reads_in (λ xs. xs.items) (reads_all (reads_tuple2 A.reads B.reads)) };
}

impl<K: Archive + Drop, V: Archive + Drop, A: Deserialize<K>, B: Deserialize<V>, H> Deserialize<
    Vec<(K, V)>,
> for ArchivedIndexMap<A, B, H> {
    type Pool = (A::Pool, B::Pool);

    fn deserialize(
        this: &Ref<'_, ArchivedIndexMap<A, B, H>>,
        alloc: Global,
        deserializer: &mut (A::Pool, B::Pool),
    ) -> Result<Vec<(K, V)>, Error> {
        let bytes = this.bytes;
        deserialize_index_map_each::<K, V, A, B, H, (A::Pool, B::Pool), _, _>(
            *this,
            alloc,
            deserializer,
            |d: &mut (A::Pool, B::Pool), pos: usize| -> Result<(K, PhantomData<K::Archived>), Error>
                requires there { HasValue A.shape A.knows bytes.now pos }
                requires kept { both_of A.Pool.is_of B.Pool.is_of d.old bytes.now }
                ensures value { DeserializesBy A.reads A.shape A.knows bytes.entry.now pos (λ q. q.0) result }
                ensures keeps { IfOk result (λ _. both_of A.Pool.is_of B.Pool.is_of d.new bytes.entry.now) }
            { deserialize_element::<K, A>(bytes, pos, alloc, &mut d.0) },
            |d: &mut (A::Pool, B::Pool), pos: usize| -> Result<(V, PhantomData<V::Archived>), Error>
                requires there { HasValue B.shape B.knows bytes.now pos }
                requires kept { both_of A.Pool.is_of B.Pool.is_of d.old bytes.now }
                ensures value { DeserializesBy B.reads B.shape B.knows bytes.entry.now pos (λ q. q.0) result }
                ensures keeps { IfOk result (λ _. both_of A.Pool.is_of B.Pool.is_of d.new bytes.entry.now) }
            { deserialize_element::<V, B>(bytes, pos, alloc, &mut d.1) },
        )
    }
}
