// Lists of slots.
ghost use Rattle.std.specs.Prelude.{◌≡◌, ◌==◌, ◌<◌, ◌+◌, ◌++◌, [], ◌∷◌, IfOk, OnOk, map};
ghost use Rattle.std.specs.List.{list_any, range_with_len};
ghost use Rattle.rule_book.specs.MatchFacts.{players_in};
ghost use Rattle.season_book.specs.Commands.{club_ids};
ghost use Rattle.season_records.specs.declared.slot.Slot.TheVariants as slot;
ghost use Rattle.season_records.specs.Touched.{players_left};

use fpl_base::{ClubId, Memory, Name, PlayerId};
use rule_book::Line;
use season_records::Slot;
use std::alloc::Global;

// Most commands touch so many slots at most.
const ROOM: usize = 3;

// One slot, and room for those that most commands touch.
pub fn one(alloc: Global, slot: Slot) -> Result<Vec<Slot>, Memory>
    ensures { IfOk result (λ slots. slots.items ≡ slot ∷ []) }
{
    let mut slots = Vec::with_capacity(alloc, ROOM)?;
    slots.push(slot)?;
    Ok(slots)
}

// Two slots.
pub fn two(alloc: Global, first: Slot, second: Slot) -> Result<Vec<Slot>, Memory>
    ensures { IfOk result (λ slots. slots.items ≡ first ∷ second ∷ []) }
{
    let mut slots = one(alloc, first)?;
    slots.push(second)?;
    Ok(slots)
}

// Three slots.
pub fn three(alloc: Global, first: Slot, second: Slot, third: Slot) -> Result<Vec<Slot>, Memory>
    ensures { IfOk result (λ slots. slots.items ≡ first ∷ second ∷ third ∷ []) }
{
    let mut slots = two(alloc, first, second)?;
    slots.push(third)?;
    Ok(slots)
}

// Those of clubs, behind others.
pub fn add_clubs(slots: &mut Vec<Slot>, clubs: &[(ClubId, Name)]) -> Result<(), Memory>
    ensures { OnOk result
        (slots.new.items ≡ slots.old.items ++ map slot.Club (club_ids clubs.now)) }
{
    for club in clubs {
        slots.push(Slot::Club(u32::from(club.0.get())))?;
    }
    Ok(())
}

// Those of the lines of players in a fixture who have none among these lines, behind others.
pub fn add_left(
    slots: &mut Vec<Slot>,
    fixture: u32,
    players: &[PlayerId],
    lines: &[(PlayerId, Line)],
) -> Result<(), Memory>
    ensures { OnOk result
        (slots.new.items
        ≡ slots.old.items
        ++ map (slot.Line fixture) (players_left players.now (players_in lines.now))) }
{
    for player in players {
        add_if_left(slots, fixture, *player, lines)?;
    }
    Ok(())
}

// That of a player's line in a fixture where he has none among these lines, behind others.
fn add_if_left(
    slots: &mut Vec<Slot>,
    fixture: u32,
    player: PlayerId,
    lines: &[(PlayerId, Line)],
) -> Result<(), Memory>
    ensures { OnOk result
        (slots.new.items
        ≡ slots.old.items
        ++ map (slot.Line fixture) (players_left (player ∷ []) (players_in lines.now))) }
{
    if !has_line(lines, player) {
        slots.push(Slot::Line(fixture, player.get()))?;
    }
    Ok(())
}

// Whether a player has one of these lines.
fn has_line(lines: &[(PlayerId, Line)], player: PlayerId) -> bool
    ensures { result ≡ list_any (λ p. p == player) (players_in lines.now) }
{
    for line in lines {
        if line.0 == player {
            return true;
        }
    }
    false
}

// Those of lines in a fixture, behind others.
pub fn add_lines(
    slots: &mut Vec<Slot>,
    fixture: u32,
    lines: &[(PlayerId, Line)],
) -> Result<(), Memory>
    ensures { OnOk result
        (slots.new.items ≡ slots.old.items ++ map (slot.Line fixture) (players_in lines.now)) }
{
    for line in lines {
        slots.push(Slot::Line(fixture, line.0.get()))?;
    }
    Ok(())
}

// Those of so many transfers of an entry in a gameweek from a number on, behind others.
pub fn add_transfers(
    slots: &mut Vec<Slot>,
    entry: u32,
    gameweek: u32,
    first: u32,
    count: u32,
) -> Result<(), Memory>
    requires { first + count < 4294967296 }
    ensures { OnOk result
        (slots.new.items
        ≡ slots.old.items ++ map (slot.Transfer entry gameweek) (range_with_len first count)) }
{
    for number in first..first + count {
        slots.push(Slot::Transfer(entry, gameweek, number))?;
    }
    Ok(())
}
