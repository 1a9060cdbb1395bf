// The players of a made-up season, and the squads.
ghost use Rattle.std.specs.Prelude.{◌≡◌, ◌≤◌, ◌+◌};
ghost use Rattle.season_generator.specs.Made.{bands_of, player_in, position_in, squad_by};

use fpl_base::{PlayerId, Position};

// The position of a band of twenty players, from 0 to 29.
pub(crate) fn position_in(band: u32) -> Position
    ensures { result ≡ position_in band }
{
    if band < 3 {
        Position::Keeper
    } else if band < 12 {
        Position::Defender
    } else if band < 23 {
        Position::Midfielder
    } else {
        Position::Forward
    }
}

// The first band of the position of a slot, and how many there are.
fn bands_of(slot: u32) -> (u32, u32)
    ensures value { result ≡ bands_of slot }
    ensures some { 1 ≤ result.1 }
    ensures range { result.0 + result.1 ≤ 30 }
{
    if slot == 1 || slot == 12 {
        (0, 3)
    } else if slot <= 5 || slot == 13 {
        (3, 9)
    } else if slot <= 9 || slot == 14 {
        (12, 11)
    } else {
        (23, 7)
    }
}

// The player in a slot of an entry, by one draw.
fn player_in(entry: u32, slot: u32, drawn: u32) -> PlayerId
    requires entry { entry ≤ 500 }
    requires from_1 { 1 ≤ slot }
    requires to_15 { slot ≤ 15 }
    ensures { result ≡ player_in entry slot drawn }
{
    let (first, count) = bands_of(slot);
    player(20 * (first + drawn % count) + (entry + slot - 1) % 20 + 1)
}

// The player with this id.
pub(crate) fn player(id: u32) -> PlayerId
    requires from_1 { 1 ≤ id }
    requires to_last { id ≤ 999999 }
    ensures { result ≡ id }
{
    match PlayerId::new(id) {
        Some(player) => player,
        None => unreachable!(),
    }
}

// The squad of an entry, by slot.
pub(crate) fn squad_by(entry: u32, drawn: &[u32; 16]) -> [PlayerId; 15]
    requires { entry ≤ 500 }
    ensures { result ≡ squad_by entry drawn.now }
{
    let mut players = [player(1); 15];
    for place in 0..15u32 {
        players[place as usize] = player_in(entry, place + 1, drawn[place as usize]);
    }
    players
}
