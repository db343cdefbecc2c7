//! `Stock`, a struct of maps, and how it is archived: as the tuple of its fields.
ghost use Rattle.std.specs.Prelude.{false, refl};
ghost use Rattle.std.specs.Int.{w32, to_le_bytes};
ghost use Rattle.std.specs.Rc.{rc_str_bytes};
ghost use Rattle.std.specs.String.{string_bytes};
ghost use Rattle.archive_shape_layout.specs.Shape.Shape.{text, shared};
ghost use Rattle.archive_shape_layout.specs.Shape.Pointee.{str};
ghost use Rattle.archive_shape_layout.specs.Value.Value.{natural};
ghost use Rattle.archive_forms_laws.specs.Fields.{tuple2_spelling};
ghost use Rattle.archive_forms_laws.specs.Forms.{seen_as};
ghost use Rattle.archive_forms_laws.specs.Pointers.{slice_spelling};
ghost use Rattle.archive_forms_laws.specs.Serializing.{CanResolveAt, ResolvesAt};
ghost use Rattle.archive_forms_laws.specs.Texts.{text_spelling};
ghost use Rattle.archive_forms_laws.proofs.Fields.{tuple2_spells, tuple4_spells};
ghost use Rattle.archive_forms_laws.proofs.Leaves.{leaf_spells};
ghost use Rattle.archive_forms_laws.proofs.Pointers.{slice_spells};
ghost use Rattle.archive_forms_laws.proofs.Texts.{text_spells};
ghost use Rattle.archive_forms_laws.proofs.Views.{kept_spells, kept_spells_at, seen_spells, seen_spells_at};
ghost use Rattle.archive_forms_rc.specs.Counted.{shared_str_rc_spelling};
ghost use Rattle.archive_forms_values.specs.Tuples.{tuple2};
ghost use Rattle.archive_forms_writing.specs.Owned.{str_spelling, string_spelling};
ghost use Rattle.archive_forms_writing.proofs.Shared.{seen_text_spells};
ghost use Rattle.archive_btree_spelling.proofs.Maps.{map_spells};
ghost use Rattle.archive_btree.specs.Owned.{entries_spelling};
ghost use Rattle.archive_hash_probing.specs.Inputs.{input_hash};
ghost use Rattle.archive_hash_probing.proofs.Small.{input_hash_small};
ghost use Rattle.archive_hash_writing.proofs.SpellingTables.{table_spells};
ghost use Rattle.archive_example_stock.specs.Stock.{number_shape, number_spelling, prices_shape, counts_shape, shelves_shape, labels_shape, stock_shape, any_stock};

use crate::archived::ArchivedStock;
use crate::lent::Lent;
use archive_btree::{BTreeMapResolver, OwnedBTreeMap};
use archive_core::{Archive, Error, Place, Serialize, Shared, SharingExt, VecResolver};
use archive_hash::{HashTableResolver, OwnedHashMap};
use std::hash::Hash;
use std::rc::RcStr;

/// What is in stock.
#[derive(Drop)]
pub struct Stock {
    /// The prices, by the names of the wares.
    pub prices: OwnedHashMap<String, u32>,
    /// How many wares are on each shelf, by the number of the shelf.
    pub counts: OwnedHashMap<u32, u32>,
    /// The names of the shelves, by their numbers.
    pub shelves: OwnedBTreeMap<u32, String, 5>,
    /// The labels of the wares. Equal ones are shared.
    pub labels: Vec<Shared<RcStr>>,
}

/// The tuple of the fields.
pub type Fields = (
    OwnedHashMap<String, u32>,
    OwnedHashMap<u32, u32>,
    OwnedBTreeMap<u32, String, 5>,
    Vec<Shared<RcStr>>,
);

impl Archive for Stock {
    type Archived = ArchivedStock;

    type Resolver = (
        HashTableResolver,
        HashTableResolver,
        BTreeMapResolver,
        VecResolver,
    );

    ghost spelling = { seen_as (λ s. (s.prices, s.counts, s.shelves, s.labels)) ⟦<Fields as Archive>⟧.spelling };

    fn resolve(
        &self,
        resolver: (
            HashTableResolver,
            HashTableResolver,
            BTreeMapResolver,
            VecResolver,
        ),
        out: Place<'_, ArchivedStock>,
    ) -> Result<(), Error>
        requires { CanResolveAt (seen_as (λ s. (s.prices, s.counts, s.shelves, s.labels)) ⟦<Fields as Archive>⟧.spelling) stock_shape self.now resolver out }
        ensures { ResolvesAt (seen_as (λ s. (s.prices, s.counts, s.shelves, s.labels)) ⟦<Fields as Archive>⟧.spelling) stock_shape self.now resolver
            out.entry out.exit result }
    {
        let Place {
            out,
            start,
            pos,
            ..
        } = out;
        let fields = (
            Lent(&self.prices),
            Lent(&self.counts),
            Lent(&self.shelves),
            Lent(&self.labels),
        );
        fields.resolve(resolver, Place::within(out, start, pos))
    }

    ghost spells = { λ fit. seen_spells fit stock_shape any_stock (λ s. (s.prices, s.counts, s.shelves, s.labels)) ⟦<Fields as Archive>⟧.spelling
        (tuple4_spells fit any_stock prices_shape _ counts_shape _ shelves_shape _ labels_shape _
        (seen_spells fit prices_shape any_stock (λ m. m.map.entries) _ (kept_spells fit prices_shape any_stock _ _ (λ r. refl) _
        (table_spells fit (tuple2 text number_shape) any_stock (tuple2_spelling text string_spelling number_shape number_spelling) 7 8 (λ e. input_hash (⟦<String as Hash>⟧.hash_input e.0)) (λ e. input_hash_small (⟦<String as Hash>⟧.hash_input e.0))
        (tuple2_spells fit any_stock text string_spelling number_shape number_spelling (seen_spells fit text any_stock string_bytes str_spelling (kept_spells fit text any_stock _ _ (λ r. refl) text_spelling (text_spells fit any_stock))) (leaf_spells fit number_shape any_stock (λ n. to_le_bytes w32 n) natural tt)))))
        (seen_spells fit counts_shape any_stock (λ m. m.map.entries) _ (kept_spells fit counts_shape any_stock _ _ (λ r. refl) _
        (table_spells fit (tuple2 number_shape number_shape) any_stock (tuple2_spelling number_shape number_spelling number_shape number_spelling) 7 8 (λ e. input_hash (⟦<u32 as Hash>⟧.hash_input e.0)) (λ e. input_hash_small (⟦<u32 as Hash>⟧.hash_input e.0))
        (tuple2_spells fit any_stock number_shape number_spelling number_shape number_spelling (leaf_spells fit number_shape any_stock (λ n. to_le_bytes w32 n) natural tt) (leaf_spells fit number_shape any_stock (λ n. to_le_bytes w32 n) natural tt)))))
        (λ m. seen_spells_at fit shelves_shape any_stock (λ n. n.map.entries) (entries_spelling 5 number_shape text number_spelling string_spelling) m
        (kept_spells_at fit shelves_shape any_stock _ _ (λ r. refl) _ m.map.entries
        (map_spells fit 5 number_shape text any_stock number_spelling string_spelling (leaf_spells fit number_shape any_stock (λ n. to_le_bytes w32 n) natural tt) (seen_spells fit text any_stock string_bytes str_spelling (kept_spells fit text any_stock _ _ (λ r. refl) text_spelling (text_spells fit any_stock))) m.map.entries m.some)))
        (kept_spells fit labels_shape any_stock _ _ (λ r. refl) _
        (seen_spells fit labels_shape any_stock (λ v. v.items) (slice_spelling (shared false str) shared_str_rc_spelling)
        (slice_spells fit (shared false str) any_stock shared_str_rc_spelling
        (kept_spells fit (shared false str) any_stock _ _ (λ r. refl) _ (seen_text_spells fit false any_stock (λ x. x.key) (λ x. rc_str_bytes x.value))))))) };
}

impl<S: SharingExt> Serialize<S> for Stock {
    fn serialize(
        &self,
        serializer: &mut S,
    ) -> Result<
        (
            HashTableResolver,
            HashTableResolver,
            BTreeMapResolver,
            VecResolver,
        ),
        Error,
    > {
        let fields = (
            Lent(&self.prices),
            Lent(&self.counts),
            Lent(&self.shelves),
            Lent(&self.labels),
        );
        fields.serialize(serializer)
    }
}
