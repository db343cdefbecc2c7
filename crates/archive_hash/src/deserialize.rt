//! Reads archived maps back as maps of std.
ghost use Rattle.std.specs.Prelude.{IfOk};
ghost use Rattle.archive_forms_values.specs.Parts.{HasValue};
ghost use Rattle.archive_forms.specs.Deserializing.{DeserializesBy};
ghost use Rattle.archive_forms.specs.Keeping.{both_of};
ghost use Rattle.archive_hash.specs.ReadBack.{reads_map};
ghost use Rattle.archive_hash_maps.specs.Maps.{HasMap};
ghost use Rattle.archive_hash.specs.Calls.Reading.{StepTakesAll, DeserializesMap};
ghost use Rattle.archive_forms.specs.Calls.Steps.{StepReadsBack};

use crate::OwnedHashMap;
use archive_forms::{Deserialize, Deserializer, ReadBack, deserialize_element};
use archive_forms_writing::Archive;
use archive_hash_maps::ArchivedHashMap;
use archive_shape::{Error, Ref};
use std::alloc::Global;
use std::collections::HashMap;
use std::hash::Hash;
use std::marker::PhantomData;

/// Reads a map back, whose keys are read by `read_key` and whose values by `read_value`. Its entries are inserted by
/// ascending place. The archive of a map that was checked may have equal keys. The map then has the first of them, with
/// the value of the last one. `OutOfMemory` if an insertion fails.
pub fn deserialize_hash_map_each<
    K: Archive + Eq + Hash + Drop,
    V: Archive + Drop,
    A: ReadBack<K>,
    B: ReadBack<V>,
    H,
    D: Deserializer,
    F: Fn(&mut D, usize) -> Result<(K, PhantomData<K::Archived>), Error>,
    G: Fn(&mut D, usize) -> Result<(V, PhantomData<V::Archived>), Error>,
>(
    this: Ref<'_, ArchivedHashMap<A, B, H>>,
    alloc: Global,
    deserializer: &mut D,
    read_key: F,
    read_value: G,
) -> Result<OwnedHashMap<K, V>, Error>
    requires there { HasMap A.shape B.shape A.knows B.knows this }
    requires kept { D.is_of deserializer.old this.bytes.now }
    requires takes_key { StepTakesAll F.Fn read_key A.ReadBack D.is_of this.bytes.now }
    requires reads_key { StepReadsBack F.Fn read_key A.ReadBack D.is_of this.bytes.now }
    requires takes_value { StepTakesAll G.Fn read_value B.ReadBack D.is_of this.bytes.now }
    requires reads_value { StepReadsBack G.Fn read_value B.ReadBack D.is_of this.bytes.now }
    ensures value { DeserializesMap K.eq A.ReadBack B.ReadBack this.entry result }
    ensures keeps { IfOk result (λ _. D.is_of deserializer.new this.entry.bytes.now) }
{
    let mut map = HashMap::new(alloc);
    let mut entries = ArchivedHashMap::iter(this);
    while let Some((key, value)) = entries.next() {
        let key = read_key(deserializer, key.pos)?.0;
        let value = read_value(deserializer, value.pos)?.0;
        if map.insert(key, value).is_err() {
            return Err(Error::OutOfMemory);
        }
    }
    Ok(OwnedHashMap { map })
}

impl<K: Eq + Hash, V, A: ReadBack<K>, B: ReadBack<V>, H> ReadBack<OwnedHashMap<K, V>>
    for ArchivedHashMap<A, B, H> {
    ghost reads = { reads_map K.eq (λ m. m.map.entries) A.reads B.reads };
}

impl<
    K: Archive + Eq + Hash + Drop,
    V: Archive + Drop,
    H,
    A: Deserialize<K>,
    B: Deserialize<V>,
> Deserialize<OwnedHashMap<K, V>> for ArchivedHashMap<A, B, H> {
    type Pool = (A::Pool, B::Pool);

    fn deserialize(
        this: &Ref<'_, ArchivedHashMap<A, B, H>>,
        alloc: Global,
        deserializer: &mut (A::Pool, B::Pool),
    ) -> Result<OwnedHashMap<K, V>, Error> {
        let bytes = this.bytes;
        deserialize_hash_map_each::<K, V, A, B, H, (A::Pool, B::Pool), _, _>(
            *this,
            alloc,
            deserializer,
            |d: &mut (A::Pool, B::Pool), pos: usize| -> Result<(K, PhantomData<K::Archived>), Error>
                requires there { HasValue A.shape A.knows bytes.now pos }
                requires kept { both_of A.Pool.is_of B.Pool.is_of d.old bytes.now }
                ensures value { DeserializesBy A.reads A.shape A.knows bytes.entry.now pos (λ q. q.0) result }
                ensures keeps { IfOk result (λ _. both_of A.Pool.is_of B.Pool.is_of d.new bytes.entry.now) }
            { deserialize_element::<K, A>(bytes, pos, alloc, &mut d.0) },
            |d: &mut (A::Pool, B::Pool), pos: usize| -> Result<(V, PhantomData<V::Archived>), Error>
                requires there { HasValue B.shape B.knows bytes.now pos }
                requires kept { both_of A.Pool.is_of B.Pool.is_of d.old bytes.now }
                ensures value { DeserializesBy B.reads B.shape B.knows bytes.entry.now pos (λ q. q.0) result }
                ensures keeps { IfOk result (λ _. both_of A.Pool.is_of B.Pool.is_of d.new bytes.entry.now) }
            { deserialize_element::<V, B>(bytes, pos, alloc, &mut d.1) },
        )
    }
}
