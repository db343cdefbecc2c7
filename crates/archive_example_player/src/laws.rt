//! The law of the struct. It is a function without a body, whose contract is the law.
ghost use Rattle.archive_forms.specs.Faithful.{IsFaithful};

use crate::{ArchivedPlayer, Player};
use archive_core::{Archive, ReadBack};

/// A player is read back as what was archived.
pub fn player_is_faithful()
    ensures { IsFaithful ⟦<Player as Archive>⟧.spelling ⟦<ArchivedPlayer as ReadBack<Player>>⟧.reads }
{}
