//! `Player`, a struct, and how it is archived.
ghost use Rattle.std.specs.Prelude.{◌-◌, ◌^◌, ◌<◌, [], ◌∷◌, refl};
ghost use Rattle.std.specs.Int.{w32, to_le_bytes, cast_unsigned};
ghost use Rattle.std.specs.String.{string_bytes};
ghost use Rattle.archive_shape_layout.specs.Shape.Shape.{text, vector};
ghost use Rattle.archive_shape_layout.specs.Value.Value.{natural, integer};
ghost use Rattle.archive_forms_laws.specs.Pointers.{slice_spelling};
ghost use Rattle.archive_forms_laws.specs.Texts.{text_spelling};
ghost use Rattle.archive_forms_laws.specs.Serializing.{CanResolve, HasState, Resolves, Serializes};
ghost use Rattle.archive_forms_laws.proofs.Fields.{tuple3_spells};
ghost use Rattle.archive_forms_laws.proofs.Leaves.{leaf_spells};
ghost use Rattle.archive_forms_laws.proofs.Options.{option_spells};
ghost use Rattle.archive_forms_laws.proofs.Pointers.{slice_spells};
ghost use Rattle.archive_forms_laws.proofs.Texts.{text_spells};
ghost use Rattle.archive_forms_laws.proofs.Views.{kept_spells, seen_spells};
ghost use Rattle.archive_forms_writing.specs.Owned.{str_spelling, string_spelling, vec_spelling};
ghost use Rattle.archive_example_player.specs.Player.{KnowsPlayer, level_shape, score_shape, scores_shape, player_shape, level_spelling, score_spelling, scores_spelling, player_fields, fields_spelling, player_spelling};

use crate::ArchivedPlayer;
use archive_core::{
    Allocator, Archive, Error, Place, Serialize, StringResolver, VecResolver, Writer, resolve_field,
};

/// A player: the level that was reached, a name, and the scores of the games that were played, if they are kept.
#[derive(Drop, PartialEq)]
pub struct Player {
    pub level: u8,
    pub name: String,
    pub scores: Option<Vec<i32>>,
}

impl Archive for Player {
    type Archived = ArchivedPlayer;

    type Resolver = ((), StringResolver, Option<VecResolver>);

    ghost spelling = { player_spelling };

    fn resolve(
        &self,
        resolver: ((), StringResolver, Option<VecResolver>),
        out: Place<'_, ArchivedPlayer>,
    ) -> Result<(), Error>
        requires { CanResolve player_spelling player_shape self.now resolver out.out.now
            out.start out.pos }
        ensures { Resolves player_spelling player_shape self.now resolver out.entry.pos out.entry.start
            out.entry.out.now out.exit.0.now result }
    {
        let Place {
            out,
            start,
            pos,
            ..
        } = out;
        let end = resolve_field(&self.level, (), out, start, pos, 0)?;
        let end = resolve_field(&self.name, resolver.1, out, start, pos, end)?;
        resolve_field(&self.scores, resolver.2, out, start, pos, end)?;
        Ok(())
    }

    ghost spells = { λ fit. seen_spells fit player_shape KnowsPlayer player_fields fields_spelling
        (tuple3_spells fit KnowsPlayer level_shape level_spelling text string_spelling scores_shape scores_spelling
        (leaf_spells fit level_shape KnowsPlayer (λ b. b ∷ []) natural tt)
        (seen_spells fit text KnowsPlayer string_bytes str_spelling (kept_spells fit text KnowsPlayer _ _ (λ r. refl) text_spelling (text_spells fit KnowsPlayer)))
        (option_spells fit (vector score_shape) KnowsPlayer (vec_spelling score_shape score_spelling)
        (kept_spells fit (vector score_shape) KnowsPlayer _ _ (λ r. refl) _
        (seen_spells fit (vector score_shape) KnowsPlayer (λ v. v.items) (slice_spelling score_shape score_spelling)
        (slice_spells fit score_shape KnowsPlayer score_spelling (leaf_spells fit score_shape KnowsPlayer (λ n. to_le_bytes w32 (cast_unsigned w32 n)) integer tt)))))) };
}

impl<S: Writer + Allocator> Serialize<S> for Player {
    fn serialize(
        &self,
        serializer: &mut S,
    ) -> Result<((), StringResolver, Option<VecResolver>), Error> {
        self.level.serialize(serializer)?;
        let name = self.name.serialize(serializer)?;
        let scores = self.scores.serialize(serializer)?;
        Ok(((), name, scores))
    }
}
