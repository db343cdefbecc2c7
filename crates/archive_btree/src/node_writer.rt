//! Writing the nodes of search trees with the data of their entries.
ghost use Rattle.std.specs.Map.Iter.{deref_pair};

use archive_btree_writing::{NodeStep, write_inner_each, write_leaf_each};
use archive_forms_writing::{Archive, ArchiveWith, EntryStep};
use archive_shape::{Allocator, Error, Writer};

/// Writes nodes of borrowed keys and values, whose data is written by a step. The values are archived by `with`.
#[derive_where(Clone, Copy)]
pub(crate) struct NodeWriter<'s, A, C> {
    pub with: &'s A,
    pub step: &'s C,
}

impl<
    'a,
    's,
    K: Archive,
    V,
    A: ArchiveWith<V>,
    S: Writer + Allocator,
    C: EntryStep<K, V, A, S>,
    const E: usize,
> NodeStep<(&'a K, &'a V), S, E> for NodeWriter<'s, A, C> {
    type Key = K;

    type Value = V;

    type KeyResolver = K::Resolver;

    type ValueResolver = A::Resolver;

    ghost parts = { deref_pair };

    ghost key_shape = { K.Archived.shape };

    ghost value_shape = { A.Archived.shape };

    ghost keys = { K.spelling };

    ghost values = { λ nodes. A.spelling nodes.with.now };

    ghost takes = { λ nodes e. C.takes nodes.step.now nodes.with.now (deref_pair e) };

    fn write_leaf(&self, entries: &[(&'a K, &'a V)], serializer: &mut S) -> Result<usize, Error> {
        write_leaf_each::<K, V, A, S, C, E>(self.with, entries, serializer, self.step)
    }

    fn write_inner(
        &self,
        entries: &[(&'a K, &'a V)],
        lesser: &[Option<usize>],
        greater: Option<usize>,
        serializer: &mut S,
    ) -> Result<usize, Error> {
        write_inner_each::<K, V, A, S, C, E>(
            self.with, entries, lesser, greater, serializer, self.step,
        )
    }
}
