//! Reads archived sets back as sets of std.
ghost use Rattle.std.specs.Prelude.{IfOk};
ghost use Rattle.archive_forms_laws.specs.Fields.{unit_spelling};
ghost use Rattle.archive_forms_values.specs.Parts.{HasValue};
ghost use Rattle.archive_forms.specs.Deserializing.{DeserializesBy};
ghost use Rattle.archive_forms.specs.Reading.{reads_as};
ghost use Rattle.archive_hash_maps.specs.Sets.{HasSet};
ghost use Rattle.archive_hash.specs.Owned.{key_entries};
ghost use Rattle.archive_hash.specs.ReadBack.{reads_map};
ghost use Rattle.archive_hash.specs.Calls.Reading.{StepTakesAll, DeserializesSet};
ghost use Rattle.archive_forms.specs.Calls.Steps.{StepReadsBack};

use crate::OwnedHashSet;
use archive_forms::{Deserialize, Deserializer, ReadBack, deserialize_element};
use archive_forms_writing::Archive;
use archive_hash_maps::{ArchivedHashMap, ArchivedHashSet};
use archive_shape::{Error, Ref};
use std::alloc::Global;
use std::collections::HashSet;
use std::hash::Hash;
use std::marker::PhantomData;

/// Reads a set back, whose keys are read by `read_key`. They are inserted by ascending place. The archive of a set that
/// was checked may have equal keys. The set then has the first of them. `OutOfMemory` if an insertion fails.
pub fn deserialize_hash_set_each<
    K: Archive + Eq + Hash + Drop,
    A: ReadBack<K>,
    H,
    D: Deserializer,
    F: Fn(&mut D, usize) -> Result<(K, PhantomData<K::Archived>), Error>,
>(
    this: Ref<'_, ArchivedHashSet<A, H>>,
    alloc: Global,
    deserializer: &mut D,
    read_key: F,
) -> Result<OwnedHashSet<K>, Error>
    requires there { HasSet A.shape A.knows this.bytes.now this.pos }
    requires kept { D.is_of deserializer.old this.bytes.now }
    requires takes_key { StepTakesAll F.Fn read_key A.ReadBack D.is_of this.bytes.now }
    requires reads_key { StepReadsBack F.Fn read_key A.ReadBack D.is_of this.bytes.now }
    ensures value { DeserializesSet K.eq A.ReadBack this.entry result }
    ensures keeps { IfOk result (λ _. D.is_of deserializer.new this.entry.bytes.now) }
{
    let mut set = HashSet::new(alloc);
    let map: Ref<'_, ArchivedHashMap<A, (), H>> = Ref {
        bytes: this.bytes,
        pos: this.pos,
        of: PhantomData,
    };
    let mut entries = ArchivedHashMap::iter(map);
    while let Some((key, _value)) = entries.next() {
        let key = read_key(deserializer, key.pos)?.0;
        if set.insert(key).is_err() {
            return Err(Error::OutOfMemory);
        }
    }
    Ok(OwnedHashSet { set })
}

impl<K: Eq + Hash, A: ReadBack<K>, H> ReadBack<OwnedHashSet<K>> for ArchivedHashSet<A, H> {
    ghost reads = { reads_map K.eq (λ s. key_entries s.set.keys) A.reads (reads_as unit_spelling) };
}

impl<K: Archive + Eq + Hash + Drop, H, A: Deserialize<K>> Deserialize<OwnedHashSet<K>>
    for ArchivedHashSet<A, H> {
    type Pool = A::Pool;

    fn deserialize(
        this: &Ref<'_, ArchivedHashSet<A, H>>,
        alloc: Global,
        deserializer: &mut A::Pool,
    ) -> Result<OwnedHashSet<K>, Error> {
        let bytes = this.bytes;
        deserialize_hash_set_each::<K, A, H, A::Pool, _>(
            *this,
            alloc,
            deserializer,
            |d: &mut A::Pool, pos: usize| -> Result<(K, PhantomData<K::Archived>), Error>
                requires there { HasValue A.shape A.knows bytes.now pos }
                requires kept { A.Pool.is_of d.old bytes.now }
                ensures value { DeserializesBy A.reads A.shape A.knows bytes.entry.now pos (λ q. q.0) result }
                ensures keeps { IfOk result (λ _. A.Pool.is_of d.new bytes.entry.now) }
            { deserialize_element::<K, A>(bytes, pos, alloc, d) },
        )
    }
}
