//! Reading archived sets back as sets of std.
ghost use Rattle.std.specs.Prelude.{length, IfOk, ⊤};
ghost use Rattle.archive_shape_layout.specs.Shape.Shape.{tree, tuple};
ghost use Rattle.archive_shape_layout.specs.Shape.Shapes.{no_shapes};
ghost use Rattle.archive_forms_laws.specs.Fields.{unit_spelling};
ghost use Rattle.archive_forms_values.specs.Parts.{HasValue, both};
ghost use Rattle.archive_forms.specs.Deserializing.{Deserializes, DeserializesBy};
ghost use Rattle.archive_forms.specs.Reading.{reads_as};
ghost use Rattle.archive_forms.specs.Steps.{StepTakes, StepReads};
ghost use Rattle.archive_btree_maps.specs.Sets.{HasSet};
ghost use Rattle.archive_btree.specs.Owned.{key_entries};
ghost use Rattle.archive_btree.specs.ReadBack.{reads_map};

use crate::OwnedBTreeSet;
use archive_btree_maps::{ArchivedBTreeMap, ArchivedBTreeSet};
use archive_forms::{Deserialize, Deserializer, ReadBack, deserialize_element};
use archive_forms_writing::Archive;
use archive_shape::{Error, Ref};
use std::alloc::Global;
use std::collections::BTreeSet;
use std::marker::PhantomData;

/// Reads a set back, whose keys are read by a step. They are inserted in turn: the archive of a set that was checked
/// may have keys that do not ascend, or equal ones, of which the first one remains.
///
/// # Errors
///
/// - `OutOfMemory` if the allocation of a key of the set fails.
/// - Any error of the step.
pub fn deserialize_set_each<
    K: Archive + Ord + Drop,
    A: ReadBack<K>,
    D: Deserializer,
    F: Fn(&mut D, usize) -> Result<(K, PhantomData<K::Archived>), Error>,
    const E: usize,
>(
    this: Ref<'_, ArchivedBTreeSet<A, E>>,
    alloc: Global,
    deserializer: &mut D,
    read_key: F,
) -> Result<OwnedBTreeSet<K, E>, Error>
    requires there { HasSet E A.shape A.knows this.bytes.now this.pos }
    requires kept { D.is_of deserializer.old this.bytes.now }
    requires takes_key { StepTakes F.Fn read_key A.shape A.knows D.is_of this.bytes.now
        (length this.bytes.now) }
    requires reads_key { StepReads F.Fn read_key A.shape A.knows D.is_of this.bytes.now (λ q. q.0) A.reads }
    ensures value { Deserializes (reads_map K.cmp (λ s. key_entries s.set.keys) A.reads
        (reads_as unit_spelling)) (tree E A.shape (tuple no_shapes)) (both A.knows (λ _. ⊤))
        this.entry.bytes.now this.entry.pos result }
    ensures keeps { IfOk result (λ _. D.is_of deserializer.new this.entry.bytes.now) }
{
    let mut set = BTreeSet::new(alloc);
    let map: Ref<'_, ArchivedBTreeMap<A, (), E>> = Ref {
        bytes: this.bytes,
        pos: this.pos,
        of: PhantomData,
    };
    let mut entries = ArchivedBTreeMap::iter(map);
    while let Some((key, _value)) = entries.next() {
        let key = read_key(deserializer, key.pos)?.0;
        if set.insert(key).is_err() {
            return Err(Error::OutOfMemory);
        }
    }
    Ok(OwnedBTreeSet { set })
}

impl<K: Ord, A: ReadBack<K>, const E: usize> ReadBack<OwnedBTreeSet<K, E>>
    for ArchivedBTreeSet<A, E> {
    ghost reads = { reads_map K.cmp (λ s. key_entries s.set.keys) A.reads (reads_as unit_spelling) };
}

impl<K: Archive + Ord + Drop, A: Deserialize<K>, const E: usize> Deserialize<OwnedBTreeSet<K, E>>
    for ArchivedBTreeSet<A, E> {
    type Pool = A::Pool;

    fn deserialize(
        this: &Ref<'_, ArchivedBTreeSet<A, E>>,
        alloc: Global,
        deserializer: &mut A::Pool,
    ) -> Result<OwnedBTreeSet<K, E>, Error> {
        let bytes = this.bytes;
        deserialize_set_each::<K, A, A::Pool, _, E>(
            *this,
            alloc,
            deserializer,
            |d: &mut A::Pool, pos: usize| -> Result<(K, PhantomData<K::Archived>), Error>
                requires there { HasValue A.shape A.knows bytes.now pos }
                requires kept { A.Pool.is_of d.old bytes.now }
                ensures value { DeserializesBy A.reads A.shape A.knows bytes.entry.now pos (λ q. q.0) result }
                ensures keeps { IfOk result (λ _. A.Pool.is_of d.new bytes.entry.now) }
            { deserialize_element::<K, A>(bytes, pos, alloc, d) },
        )
    }
}
