//! The archived form of the struct: the positions of its fields, and how it is checked, read in place, edited and read
//! back.
ghost use Rattle.std.specs.Prelude.{◌≡◌, ◌+◌, ◌-◌, ◌^◌, min, [], ⊤};
ghost use Rattle.std.proofs.Common.{refl, lit<, lit≤};
ghost use Rattle.archive_shape_layout.specs.Shape.{size_of};
ghost use Rattle.archive_forms_laws.specs.Text.{HasText};
ghost use Rattle.archive_forms_values.specs.Parts.{HasValue};
ghost use Rattle.archive_forms_values.specs.Fields.{AreFieldsAt};
ghost use Rattle.archive_forms.specs.Reading.{reads_in};
ghost use Rattle.archive_example_player.specs.Player.{level_shape, scores_shape, player_shape, player_parts, KnowsPlayer, player_fields};

use crate::Player;
use archive_core::{
    ArchiveContext, ArchivedI32, ArchivedOption, ArchivedString, ArchivedTuple3, ArchivedVec,
    CheckBytes, Deserialize, Error, Portable, ReadBack, Ref, Seal, Shape,
};
use std::alloc::{AllocError, Global};

/// The tuple of the archived fields.
type Fields = ArchivedTuple3<u8, ArchivedString, ArchivedOption<ArchivedVec<ArchivedI32>>>;

/// An archived player: 24 bytes, with the level at 0, the name at 4 and the scores at 12.
#[derive(Clone, Copy)]
pub struct ArchivedPlayer {}

impl Portable for ArchivedPlayer {
    ghost SIZE = { min (size_of player_shape) (2 ^ 64 - 1) };

    ghost ALIGN = { 4 };

    ghost shape = { player_shape };

    ghost knows = { KnowsPlayer };

    ghost named = { [] };

    const SIZE: usize = 24;

    const ALIGN: usize = 4;

    fn shape(alloc: Global) -> Result<Shape, AllocError> {
        Fields::shape(alloc)
    }

    ghost sized = { refl };

    ghost aligned = { refl };

    ghost aligns = { (lit< tt, lit≤ tt) };

    ghost known = { λ _ _. (tt, tt, tt) };
}

impl<C: ArchiveContext> CheckBytes<C> for ArchivedPlayer {
    fn check(alloc: Global, bytes: &[u8], pos: usize, context: &mut C) -> Result<(), Error> {
        Fields::check(alloc, bytes, pos, context)
    }
}

impl ReadBack<Player> for ArchivedPlayer {
    ghost reads = { reads_in player_fields ⟦<Fields as ReadBack<(u8, String, Option<Vec<i32>>)>>⟧.reads };
}

impl Deserialize<Player> for ArchivedPlayer {
    type Pool = ((), (), ());

    fn deserialize(
        this: &Ref<'_, ArchivedPlayer>,
        alloc: Global,
        deserializer: &mut ((), (), ()),
    ) -> Result<Player, Error> {
        let fields = Ref::<Fields>::new(this.bytes, this.pos);
        let (level, name, scores) = Fields::deserialize(&fields, alloc, deserializer)?;
        Ok(Player {
            level,
            name,
            scores,
        })
    }
}

impl ArchivedPlayer {
    /// Returns the level.
    pub fn level<'a>(this: Ref<'a, ArchivedPlayer>) -> Ref<'a, u8>
        requires { HasValue player_shape KnowsPlayer this.bytes.now this.pos }
        ensures bytes { result.bytes ≡ this.entry.bytes }
        ensures pos { result.pos ≡ this.entry.pos }
        ensures there { HasValue level_shape (λ _. ⊤) result.bytes.now result.pos }
        ensures value { AreFieldsAt player_parts KnowsPlayer this.entry.bytes.now this.entry.pos }
    {
        ArchivedTuple3::first(Ref::<Fields>::new(this.bytes, this.pos))
    }

    /// Returns the name.
    pub fn name<'a>(this: Ref<'a, ArchivedPlayer>) -> Ref<'a, ArchivedString>
        requires { HasValue player_shape KnowsPlayer this.bytes.now this.pos }
        ensures bytes { result.bytes ≡ this.entry.bytes }
        ensures pos { result.pos ≡ this.entry.pos + 4 }
        ensures there { HasText result.bytes.now result.pos }
        ensures value { AreFieldsAt player_parts KnowsPlayer this.entry.bytes.now this.entry.pos }
    {
        ArchivedTuple3::second(Ref::<Fields>::new(this.bytes, this.pos))
    }

    /// Returns the scores, which are none if they are not kept.
    pub fn scores<'a>(
        this: Ref<'a, ArchivedPlayer>,
    ) -> Ref<'a, ArchivedOption<ArchivedVec<ArchivedI32>>>
        requires { HasValue player_shape KnowsPlayer this.bytes.now this.pos }
        ensures bytes { result.bytes ≡ this.entry.bytes }
        ensures pos { result.pos ≡ this.entry.pos + 12 }
        ensures there { HasValue scores_shape (λ _. ⊤) result.bytes.now result.pos }
        ensures value { AreFieldsAt player_parts KnowsPlayer this.entry.bytes.now this.entry.pos }
    {
        ArchivedTuple3::third(Ref::<Fields>::new(this.bytes, this.pos))
    }

    /// Returns the level, which may be edited.
    pub fn level_seal<'a>(this: Seal<'a, ArchivedPlayer>) -> Seal<'a, u8>
        ensures same_reference { result.bytes.ghost_name ≡ this.entry.bytes.ghost_name }
        ensures bytes { result.bytes.now ≡ this.entry.bytes.now }
        ensures pos { result.pos ≡ this.entry.pos }
    {
        let Seal { bytes, pos, .. } = this;
        Seal::new(bytes, pos)
    }
}
