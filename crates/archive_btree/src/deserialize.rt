//! Reading archived maps back as maps of std.
ghost use Rattle.std.specs.Prelude.{length, IfOk};
ghost use Rattle.archive_shape_layout.specs.Shape.Shape.{tree};
ghost use Rattle.archive_forms_values.specs.Parts.{HasValue, both};
ghost use Rattle.archive_forms.specs.Deserializing.{Deserializes, DeserializesBy, IsReadAt};
ghost use Rattle.archive_forms.specs.Keeping.{both_of};
ghost use Rattle.archive_forms.specs.Steps.{StepTakes, StepReads};
ghost use Rattle.archive_btree.specs.ReadBack.{InsertsRead, reads_map};
ghost use Rattle.archive_btree_maps.specs.Maps.{HasMap};

use crate::OwnedBTreeMap;
use archive_btree_maps::ArchivedBTreeMap;
use archive_forms::{Deserialize, Deserializer, ReadBack, deserialize_element};
use archive_forms_writing::Archive;
use archive_shape::{Error, Ref};
use std::alloc::Global;
use std::collections::BTreeMap;
use std::marker::PhantomData;

/// Reads the key and the value at positions by their steps, and inserts them into a map.
fn insert_read<
    K: Archive + Ord + Drop,
    V: Archive + Drop,
    A: ReadBack<K>,
    B: ReadBack<V>,
    D: Deserializer,
    F: Fn(&mut D, usize) -> Result<(K, PhantomData<K::Archived>), Error>,
    G: Fn(&mut D, usize) -> Result<(V, PhantomData<V::Archived>), Error>,
>(
    map: &mut BTreeMap<K, V>,
    bytes: &[u8],
    key: usize,
    value: usize,
    deserializer: &mut D,
    read_key: &F,
    read_value: &G,
) -> Result<(), Error>
    requires has_key { HasValue A.shape A.knows bytes.now key }
    requires has_value { HasValue B.shape B.knows bytes.now value }
    requires kept { D.is_of deserializer.old bytes.now }
    requires takes_key { StepTakes F.Fn read_key.now A.shape A.knows D.is_of bytes.now (length bytes.now) }
    requires reads_key { StepReads F.Fn read_key.now A.shape A.knows D.is_of bytes.now (λ q. q.0) A.reads }
    requires takes_value { StepTakes G.Fn read_value.now B.shape B.knows D.is_of bytes.now (length bytes.now) }
    requires reads_value { StepReads G.Fn read_value.now B.shape B.knows D.is_of bytes.now (λ q. q.0) B.reads }
    ensures value { InsertsRead K.cmp (IsReadAt A.reads A.shape A.knows bytes.entry.now key)
        (IsReadAt B.reads B.shape B.knows bytes.entry.now value) map.old.entries map.new.entries result }
    ensures keeps { IfOk result (λ _. D.is_of deserializer.new bytes.entry.now) }
{
    let key = read_key(deserializer, key)?.0;
    let value = read_value(deserializer, value)?.0;
    if map.insert(key, value).is_err() {
        Err(Error::OutOfMemory)
    } else {
        Ok(())
    }
}

/// Reads a map back, whose keys and values are read by steps. Its entries are inserted in turn: the archive of a map
/// that was checked may have keys that do not ascend, or equal ones, of which the first one remains, with the value of
/// the last one.
///
/// # Errors
///
/// - `OutOfMemory` if the allocation of an entry of the map fails.
/// - Any error of a step.
pub fn deserialize_map_each<
    K: Archive + Ord + Drop,
    V: Archive + Drop,
    A: ReadBack<K>,
    B: ReadBack<V>,
    D: Deserializer,
    F: Fn(&mut D, usize) -> Result<(K, PhantomData<K::Archived>), Error>,
    G: Fn(&mut D, usize) -> Result<(V, PhantomData<V::Archived>), Error>,
    const E: usize,
>(
    this: Ref<'_, ArchivedBTreeMap<A, B, E>>,
    alloc: Global,
    deserializer: &mut D,
    read_key: F,
    read_value: G,
) -> Result<OwnedBTreeMap<K, V, E>, Error>
    requires there { HasMap E A.shape B.shape A.knows B.knows this }
    requires kept { D.is_of deserializer.old this.bytes.now }
    requires takes_key { StepTakes F.Fn read_key A.shape A.knows D.is_of this.bytes.now
        (length this.bytes.now) }
    requires reads_key { StepReads F.Fn read_key A.shape A.knows D.is_of this.bytes.now (λ q. q.0) A.reads }
    requires takes_value { StepTakes G.Fn read_value B.shape B.knows D.is_of this.bytes.now
        (length this.bytes.now) }
    requires reads_value { StepReads G.Fn read_value B.shape B.knows D.is_of this.bytes.now (λ q. q.0) B.reads }
    ensures value { Deserializes (reads_map K.cmp (λ m. m.map.entries) A.reads B.reads)
        (tree E A.shape B.shape) (both A.knows B.knows) this.entry.bytes.now this.entry.pos result }
    ensures keeps { IfOk result (λ _. D.is_of deserializer.new this.entry.bytes.now) }
{
    let mut map = BTreeMap::new(alloc);
    let mut entries = ArchivedBTreeMap::iter(this);
    while let Some((key, value)) = entries.next() {
        insert_read::<K, V, A, B, D, F, G>(
            &mut map,
            this.bytes,
            key.pos,
            value.pos,
            deserializer,
            &read_key,
            &read_value,
        )?;
    }
    Ok(OwnedBTreeMap { map })
}

impl<K: Ord, V, A: ReadBack<K>, B: ReadBack<V>, const E: usize> ReadBack<OwnedBTreeMap<K, V, E>>
    for ArchivedBTreeMap<A, B, E> {
    ghost reads = { reads_map K.cmp (λ m. m.map.entries) A.reads B.reads };
}

impl<
    K: Archive + Ord + Drop,
    V: Archive + Drop,
    A: Deserialize<K>,
    B: Deserialize<V>,
    const E: usize,
> Deserialize<OwnedBTreeMap<K, V, E>> for ArchivedBTreeMap<A, B, E> {
    type Pool = (A::Pool, B::Pool);

    fn deserialize(
        this: &Ref<'_, ArchivedBTreeMap<A, B, E>>,
        alloc: Global,
        deserializer: &mut (A::Pool, B::Pool),
    ) -> Result<OwnedBTreeMap<K, V, E>, Error> {
        let bytes = this.bytes;
        deserialize_map_each::<K, V, A, B, (A::Pool, B::Pool), _, _, E>(
            *this,
            alloc,
            deserializer,
            |d: &mut (A::Pool, B::Pool), pos: usize| -> Result<(K, PhantomData<K::Archived>), Error>
                requires there { HasValue A.shape A.knows bytes.now pos }
                requires kept { both_of A.Pool.is_of B.Pool.is_of d.old bytes.now }
                ensures value { DeserializesBy A.reads A.shape A.knows bytes.entry.now pos (λ q. q.0) result }
                ensures keeps { IfOk result (λ _. both_of A.Pool.is_of B.Pool.is_of d.new bytes.entry.now) }
            { deserialize_element::<K, A>(bytes, pos, alloc, &mut d.0) },
            |d: &mut (A::Pool, B::Pool), pos: usize| -> Result<(V, PhantomData<V::Archived>), Error>
                requires there { HasValue B.shape B.knows bytes.now pos }
                requires kept { both_of A.Pool.is_of B.Pool.is_of d.old bytes.now }
                ensures value { DeserializesBy B.reads B.shape B.knows bytes.entry.now pos (λ q. q.0) result }
                ensures keeps { IfOk result (λ _. both_of A.Pool.is_of B.Pool.is_of d.new bytes.entry.now) }
            { deserialize_element::<V, B>(bytes, pos, alloc, &mut d.1) },
        )
    }
}
