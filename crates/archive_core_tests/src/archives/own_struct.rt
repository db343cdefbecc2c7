//! Tests of a user-defined struct.
use super::accessed_and_read;
use crate::shared::refusal;
use archive_core::{Error, access_mut, root_position, to_bytes};
use archive_example_player::{ArchivedPlayer, Player};
use std::alloc::{AllocError, Global};
use std::test::Fail;

/// The archive of `player`.
const PLAYER: [u8; 52] = [
    // The text, at 0, and a zero up to the next multiple of 4.
    b'h', b'e', b'l', b'l', b'o', b' ', b'w', b'o', b'r', b'l', b'd', 0, //
    // The numbers, at 12.
    1, 0, 0, 0, 2, 0, 0, 0, 3, 0, 0, 0, 4, 0, 0, 0, //
    // The root, at 28: a byte, and zeros up to the next multiple of 4.
    42, 0, 0, 0, //
    // At 32 the text: its length 11 with bit 7 set, and the offset from 32 to 0.
    0x8b, 0, 0, 0, 0xe0, 0xff, 0xff, 0xff, //
    // At 40 the tag of an option that has a value, and zeros after it.
    1, 0, 0, 0, //
    // At 44 the vector: the offset from 44 to 12, and the number of its elements.
    0xe0, 0xff, 0xff, 0xff, 4, 0, 0, 0,
];

fn player(alloc: Global) -> Result<Player, AllocError> {
    Ok(Player {
        level: 42,
        name: String::from_str(alloc, "hello world")?,
        scores: Some(vec![in alloc; 1, 2, 3, 4]?),
    })
}

/// Returns `true` if this is the player with the level `level`.
fn is_player(found: &Player, level: u8) -> bool {
    let Some(scores) = &found.scores else {
        return false;
    };
    found.level == level
        && found.name.as_str() == "hello world"
        && scores.as_slice() == &[1, 2, 3, 4][..]
}

#[test]
fn a_struct_is_written_behind_what_its_fields_lead_to(rt: HostRuntime) -> Result<(), Fail> {
    let alloc = rt.alloc();
    let bytes = to_bytes(alloc, &player(alloc)?)?;
    assert!(rt;
        bytes.as_slice() == PLAYER.as_slice() && root_position::<ArchivedPlayer>(bytes.len()) == 28
    );
    Ok(())
}

#[test]
fn a_field_is_edited_where_it_lies(rt: HostRuntime) -> Result<(), Fail> {
    let alloc = rt.alloc();
    let mut bytes = PLAYER;
    let root = access_mut::<ArchivedPlayer>(alloc, &mut bytes)?;
    ArchivedPlayer::level_seal(root).write(43);
    let mut wanted = PLAYER;
    wanted[28] = 43;
    assert!(rt; bytes == wanted && is_player(&accessed_and_read::<Player>(alloc, &bytes)?, 43));
    Ok(())
}

#[test]
fn a_struct_with_a_wrong_tag_is_refused(rt: HostRuntime) {
    let mut bytes = PLAYER;
    bytes[40] = 2;
    assert!(rt; refusal::<ArchivedPlayer>(rt.alloc(), &bytes) == Some(Error::InvalidTag));
}
