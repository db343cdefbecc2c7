//! The example program: a player is archived, read in place, edited in place, and read back as an equal player.
#![tactic(auto)]

ghost use Rattle.std.specs.Prelude.{⊤};
ghost use Rattle.archive_shape_layout.specs.Shape.Shape.{vector};
ghost use Rattle.archive_forms_values.specs.Parts.{HasValue};
ghost use Rattle.archive_example_player.specs.Player.{score_shape, player_shape, KnowsPlayer};

use archive_core::{
    ArchivedI32, ArchivedOption, ArchivedString, ArchivedVec, Error, Ref, access, access_mut,
    from_bytes, native_of, to_bytes,
};
use archive_example_player::{ArchivedPlayer, Player, read_back};
use std::alloc::Global;
use std::io;
use thiserror::Error as Described;

/// An error that ends the program early.
#[derive(Debug, Drop, Described)]
enum Fault {
    #[error("archive: {0}")]
    Archive(Error),
    #[error("print: {0}")]
    Print(io::Error),
}

impl From<Error> for Fault {
    fn from(refusal: Error) -> Fault {
        Fault::Archive(refusal)
    }
}

impl From<io::Error> for Fault {
    fn from(refusal: io::Error) -> Fault {
        Fault::Print(refusal)
    }
}

fn player(alloc: Global) -> Result<Player, Error> {
    Ok(Player {
        level: 42,
        name: String::from_str(alloc, "hello world")?,
        scores: Some(vec![in alloc; 1, 2, 3, 4]?),
    })
}

/// Prints the scores, which are read in place.
fn print_scores<R: Print>(rt: &R, scores: Ref<'_, ArchivedVec<ArchivedI32>>) -> io::Result<()>
    requires { HasValue (vector score_shape) (λ _. ⊤) scores.bytes.now scores.pos }
{
    for index in 0..ArchivedVec::len(scores) {
        if let Some(score) = ArchivedVec::get(scores, index) {
            println!(rt; "score {}", native_of(score))?;
        }
    }
    Ok(())
}

/// Prints the fields of a player, which are read in place.
fn print_fields<R: Print>(rt: &R, player: Ref<'_, ArchivedPlayer>) -> io::Result<()>
    requires { HasValue player_shape KnowsPlayer player.bytes.now player.pos }
{
    println!(rt; "level {}", native_of(ArchivedPlayer::level(player)))?;
    println!(rt;
        "name {}",
        ArchivedString::as_str(ArchivedPlayer::name(player))
    )?;
    match ArchivedOption::as_ref(ArchivedPlayer::scores(player)) {
        Some(scores) => print_scores(rt, scores),
        None => Ok(()),
    }
}

fn main(rt: HostRuntime) -> Result<(), Fault> {
    let alloc = rt.alloc();
    let mut bytes = to_bytes(alloc, &player(alloc)?)?;
    println!(rt; "{} bytes", bytes.len())?;
    print_fields(&rt, access::<ArchivedPlayer>(alloc, &bytes)?)?;
    let root = access_mut::<ArchivedPlayer>(alloc, &mut bytes)?;
    ArchivedPlayer::level_seal(root).write(43);
    println!(rt; "edited")?;
    print_fields(&rt, access::<ArchivedPlayer>(alloc, &bytes)?)?;
    let player = from_bytes::<Player>(alloc, &bytes)?;
    println!(rt; "{} of level {}", player.name, player.level)?;
    let again = read_back(alloc, &player)?;
    println!(rt; "archived again and read back equal: {}", again == player)?;
    Ok(())
}
