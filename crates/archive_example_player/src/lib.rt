//! A user-defined struct that can be archived: what a derive macro would write, by hand.
//!
//! A player is archived as the tuple of its fields is. Its archived form has the tuple's layout and check, and its
//! spelling is the tuple's. Only the two functions that write the fields are proved separately.
#![tactic(auto)]

mod archived;
mod laws;
mod player;
mod round_trip;

pub use archived::ArchivedPlayer;
pub use laws::player_is_faithful;
pub use player::Player;
pub use round_trip::{alike_players_are_equal, read_back};
