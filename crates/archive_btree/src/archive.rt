//! Archiving maps of std: their archived type, and the write of their own bytes.
ghost use Rattle.std.specs.Prelude.{◌≡◌, refl};
ghost use Rattle.archive_shape_layout.specs.Shape.Shape.{tree};
ghost use Rattle.archive_forms_laws.specs.Forms.{seen_as};
ghost use Rattle.archive_forms_laws.specs.Serializing.{CanResolve, Resolves};
ghost use Rattle.archive_forms_laws.proofs.Views.{kept_spells_at, known_spells, seen_spells_at};
ghost use Rattle.archive_forms_values.specs.Parts.{both};
ghost use Rattle.archive_btree_spelling.proofs.Maps.{map_spells};
ghost use Rattle.archive_btree.specs.Owned.{entries_spelling};

use crate::OwnedBTreeMap;
use archive_btree_maps::{ArchivedBTreeMap, BTreeMapResolver};
use archive_forms_writing::Archive;
use archive_shape::{Error, Place};

impl<K: Archive + Ord, V: Archive, const E: usize> Archive for OwnedBTreeMap<K, V, E> {
    type Archived = ArchivedBTreeMap<K::Archived, V::Archived, E>;

    type Resolver = BTreeMapResolver;

    ghost spelling = { seen_as (λ m. m.map.entries) (entries_spelling E K.Archived.shape V.Archived.shape K.spelling V.spelling) };

    fn resolve(
        &self,
        resolver: BTreeMapResolver,
        out: Place<'_, ArchivedBTreeMap<K::Archived, V::Archived, E>>,
    ) -> Result<(), Error>
        requires { CanResolve (seen_as (λ m. m.map.entries)
            (entries_spelling E K.Archived.shape V.Archived.shape K.spelling V.spelling))
            (tree E K.Archived.shape V.Archived.shape) self.now resolver out.out.now out.start out.pos }
        ensures { Resolves
            (seen_as (λ m. m.map.entries) (entries_spelling E K.Archived.shape V.Archived.shape K.spelling V.spelling))
            (tree E K.Archived.shape V.Archived.shape) self.now resolver out.entry.pos out.entry.start
            out.entry.out.now out.exit.0.now result }
    {
        let Place {
            out,
            start,
            pos,
            ..
        } = out;
        ArchivedBTreeMap::<K::Archived, V::Archived, E>::resolve_from_len(
            self.map.len(),
            resolver,
            Place::within(out, start, pos),
        )
    }

    ghost spells = { λ fit m. seen_spells_at fit (tree E K.Archived.shape V.Archived.shape) (both K.Archived.knows V.Archived.knows) (λ n. n.map.entries) (entries_spelling E K.Archived.shape V.Archived.shape K.spelling V.spelling) m
        (kept_spells_at fit (tree E K.Archived.shape V.Archived.shape) (both K.Archived.knows V.Archived.knows) _ _ (λ r. refl) _
        m.map.entries
        (map_spells fit E K.Archived.shape V.Archived.shape (both K.Archived.knows V.Archived.knows) K.spelling V.spelling
        (known_spells fit K.Archived.shape K.Archived.knows (both K.Archived.knows V.Archived.knows) (λ _ k. k.0) K.spelling (K.spells fit))
        (known_spells fit V.Archived.shape V.Archived.knows (both K.Archived.knows V.Archived.knows) (λ _ k. k.1) V.spelling (V.spells fit)) m.map.entries m.some)) };
}
