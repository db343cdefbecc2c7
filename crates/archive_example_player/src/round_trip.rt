//! A player is archived and read back.
ghost use Rattle.std.specs.Prelude.{◌≡◌, ◌⊎◌, IsTrue, MatchResult};
ghost use Rattle.archive_shape_layout.specs.declared.error.Error.TheVariants.{OutOfMemory};
ghost use Rattle.archive_forms.specs.Alike.{AlikeAreEqual};
ghost use Rattle.archive_core.specs.Written.{root_refused};
ghost use Rattle.archive_example_player.specs.Player.{player_shape, player_spelling};

use crate::{Player, player_is_faithful};
use archive_core::laws::{
    alike_forms_are_equal, alike_leaves_are_one, alike_texts_are_equal, alike_tuples_are_equal,
    one_is_equal, read_back_is_equal, unshared_suits,
};
use archive_core::{Archive, Error, from_bytes, to_bytes};
use std::alloc::Global;

/// Players that are archived alike are equal, because their fields are.
pub fn alike_players_are_equal()
    ensures { AlikeAreEqual ⟦<Player as Archive>⟧.spelling ⟦<Player as PartialEq>⟧.eq }
{
    alike_leaves_are_one::<()>();
    one_is_equal::<u8>();
    one_is_equal::<i32>();
    alike_texts_are_equal();
    alike_forms_are_equal::<i32, i32, 0>();
    alike_forms_are_equal::<Vec<i32>, i32, 0>();
    alike_tuples_are_equal::<u8, String, Option<Vec<i32>>, u8>();
}

/// Archives a player and reads it back. The result is equal to the player. It is refused only where its archive would exceed
/// a limit, or for want of memory.
pub fn read_back(alloc: Global, player: &Player) -> Result<Player, Error>
    ensures { MatchResult result (λ read. IsTrue (⟦<Player as PartialEq>⟧.eq player.now read))
        (λ e. (e ≡ OutOfMemory) ⊎ root_refused player_shape player_spelling player.now 0 e) }
{
    player_is_faithful();
    alike_players_are_equal();
    read_back_is_equal::<Player>();
    unshared_suits::<Player>();
    let bytes = match to_bytes(alloc, player) {
        Ok(bytes) => bytes,
        Err(e) => return Err(e),
    };
    let archive = bytes.as_slice();
    from_bytes::<Player>(alloc, archive)
}
