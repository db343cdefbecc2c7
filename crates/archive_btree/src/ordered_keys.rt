//! Search trees of keys that come in order.
ghost use Rattle.std.specs.Prelude.{◌≡◌, ℕ, ◌-◌, ◌^◌, ◌<◌};
ghost use Rattle.std.specs.Iterator.{IsFinite};
ghost use Rattle.archive_shape_layout.specs.Shape.Shape.{tuple};
ghost use Rattle.archive_shape_layout.specs.Shape.Shapes.{no_shapes};
ghost use Rattle.archive_forms_laws.specs.Fields.{unit_spelling};
ghost use Rattle.archive_forms_laws.specs.Serializing.{HasState};
ghost use Rattle.archive_forms_laws.specs.Taking.{GivesAs};
ghost use Rattle.archive_btree_writing.specs.Built.{BuildsClaimedBy};
ghost use Rattle.archive_btree.specs.Owned.{key_entry, key_of};

use crate::node_writer::NodeWriter;
use crate::ordered::MAX_ENTRIES;
use archive_btree_maps::BTreeSetResolver;
use archive_btree_writing::build_tree_each;
use archive_forms_writing::{ByArchive, Serialize, SerializeEntry};
use archive_shape::{Allocator, Error, Writer};
use std::marker::PhantomData;

/// An iterator over keys, each beside `()`.
#[derive(Drop)]
struct KeyEntries<'a, K, I> {
    keys: I,
    of: PhantomData<&'a K>,
}

impl<'a, K: 'a, I: Iterator<Item = &'a K>> Iterator for KeyEntries<'a, K, I> {
    type Item = (&'a K, &'a ());

    ghost can_next = { λ s. I.can_next s.keys };

    ghost next_gives = { λ s r t. I.next_gives s.keys (key_of r) t.keys };

    ghost remaining = { λ s. I.remaining s.keys };

    fn next(&mut self) -> Option<(&'a K, &'a ())> {
        match self.keys.next() {
            Some(key) => Some((key, &())),
            None => None,
        }
    }

    fn size_hint(&self) -> (usize, Option<usize>) {
        self.keys.size_hint()
    }
}

/// Writes the search tree of the keys of a set, which come in order. `claimed` is the number of keys that come.
///
/// # Errors
///
/// The errors of `serialize_from_ordered_iter`.
pub fn serialize_set_from_ordered_iter<
    'a,
    S: Writer + Allocator,
    K: Serialize<S> + 'a,
    I: Iterator<Item = &'a K>,
    const E: usize,
>(claimed: usize, keys: I, serializer: &mut S) -> Result<BTreeSetResolver, Error>
    requires calls { I.can_next keys × IsFinite (I.remaining keys) }
    requires some { 0 < E }
    requires room { S.failures serializer.old < 2 ^ 64 - 1 }
    requires state { HasState S.pos S.known serializer.old }
    ensures { BuildsClaimedBy E K.Archived.shape (tuple no_shapes) K.spelling unit_spelling S.Writer
        (GivesAs key_entry I.next_gives) (λ r. r.pos) claimed keys
        serializer.old serializer.new result }
{
    if E > MAX_ENTRIES {
        return Err(Error::OutOfMemory);
    }
    let nodes = NodeWriter {
        with: &ByArchive,
        step: &SerializeEntry,
    };
    let entries = KeyEntries {
        keys,
        of: PhantomData,
    };
    let pos = build_tree_each::<(&'a K, &'a ()), S, _, KeyEntries<'a, K, I>, E>(
        claimed,
        entries,
        serializer,
        &nodes,
        PhantomData,
    )?;
    Ok(BTreeSetResolver { pos })
}
