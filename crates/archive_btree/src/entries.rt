//! Writing the entries of a map of std as a search tree, where the values need not be archived by `Archive`.
ghost use Rattle.std.specs.Prelude.{◌-◌, ◌^◌, ◌<◌, map};
ghost use Rattle.archive_forms_laws.specs.Serializing.{HasState, Serializes};
ghost use Rattle.archive_forms_writing.specs.Steps.{StepTakes, StepWrites};
ghost use Rattle.archive_btree.specs.Owned.{entries_spelling};

use crate::serialize::serialize_rest_each;
use archive_btree_maps::BTreeMapResolver;
use archive_forms_writing::{Archive, ArchiveWith, EntryParts};
use archive_shape::{Allocator, Error, Writer};
use std::collections::BTreeMap;
use std::marker::PhantomData;

/// Writes the search tree of the entries of a map: the data of each key by one step, and behind it that of its value by
/// another. The values are archived by `with`. The steps are closures, so that a function in a cycle of calls can pass
/// steps that call functions of the cycle.
pub fn serialize_entries_with_each<
    K: Archive + Ord,
    V,
    A: ArchiveWith<V>,
    S: Writer + Allocator,
    F: Fn(&K, &mut S) -> Result<(K::Resolver, PhantomData<K::Archived>), Error>,
    G: Fn(&V, &mut S) -> Result<(A::Resolver, PhantomData<A::Archived>), Error>,
    const E: usize,
>(
    with: &A,
    entries: &BTreeMap<K, V>,
    serializer: &mut S,
    key_step: F,
    value_step: G,
) -> Result<BTreeMapResolver, Error>
    requires some { 0 < E }
    requires room { S.failures serializer.old < 2 ^ 64 - 1 }
    requires state { HasState S.pos S.known serializer.old }
    requires takes_key { StepTakes F.Fn S.Writer key_step (map (λ e. e.0) entries.now.entries) }
    requires writes_key { StepWrites F.Fn (λ q. q.0) K.spelling S.Writer key_step }
    requires takes_value { StepTakes G.Fn S.Writer value_step (map (λ e. e.1) entries.now.entries) }
    requires writes_value { StepWrites G.Fn (λ q. q.0) (A.spelling with.now) S.Writer value_step }
    ensures { Serializes (entries_spelling E K.Archived.shape A.Archived.shape K.spelling (A.spelling with.now))
        S.Writer entries.now.entries serializer.old serializer.new result }
{
    let step = EntryParts {
        key: key_step,
        value: value_step,
    };
    serialize_rest_each::<K, V, A, S, EntryParts<F, G>, E>(
        with,
        entries.len(),
        entries.iter(),
        serializer,
        &step,
    )
}
