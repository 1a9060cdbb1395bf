// The lists that commands hold, and when two of them are the same.
ghost use Rattle.std.specs.Prelude.{◌≡◌, ◌↔◌, IfOk, IsTrue};

use fpl_base::{ClubId, EntryId, ListOf, Memory, Moment, Name, PlayerId};
use rule_book::{Line, Swap};

/// Moments, as the deadlines of a season.
pub type Moments = ListOf<Moment>;

/// Clubs with their names.
pub type Clubs = ListOf<(ClubId, Name)>;

/// Players with their lines in a fixture.
pub type Lines = ListOf<(PlayerId, Line)>;

/// Transfers that are asked for, in their order.
pub type Swaps = ListOf<Swap>;

/// Entries by their places in a draw.
pub type Order = ListOf<EntryId>;

// Whether the same moments stand in both lists.
pub fn are_same_moments(moments: &[Moment], others: &[Moment]) -> bool
    ensures { IsTrue result ↔ (moments.now ≡ others.now) }
{
    if moments.len() != others.len() {
        return false;
    }
    for (place, moment) in moments.iter().enumerate() {
        if *moment != others[place] {
            return false;
        }
    }
    true
}

// Whether the same lines stand in both lists.
pub fn are_same_lines(lines: &[(PlayerId, Line)], others: &[(PlayerId, Line)]) -> bool
    ensures { IsTrue result ↔ (lines.now ≡ others.now) }
{
    if lines.len() != others.len() {
        return false;
    }
    for (place, line) in lines.iter().enumerate() {
        if !is_same_row(line, &others[place]) {
            return false;
        }
    }
    true
}

fn is_same_row(line: &(PlayerId, Line), other: &(PlayerId, Line)) -> bool
    ensures { IsTrue result ↔ (line.now ≡ other.now) }
{
    line.0 == other.0 && line.1 == other.1
}

// Whether the same clubs stand in both lists.
pub fn are_same_clubs(clubs: &[(ClubId, Name)], others: &[(ClubId, Name)]) -> bool
    ensures { IsTrue result ↔ (clubs.now ≡ others.now) }
{
    if clubs.len() != others.len() {
        return false;
    }
    for (place, club) in clubs.iter().enumerate() {
        if !is_same_club(club, &others[place]) {
            return false;
        }
    }
    true
}

fn is_same_club(club: &(ClubId, Name), other: &(ClubId, Name)) -> bool
    ensures { IsTrue result ↔ (club.now ≡ other.now) }
{
    club.0 == other.0 && club.1.bytes() == other.1.bytes()
}

// Whether the same transfers stand in both lists.
pub fn are_same_swaps(swaps: &[Swap], others: &[Swap]) -> bool
    ensures { IsTrue result ↔ (swaps.now ≡ others.now) }
{
    if swaps.len() != others.len() {
        return false;
    }
    for (place, swap) in swaps.iter().enumerate() {
        if *swap != others[place] {
            return false;
        }
    }
    true
}

// Whether the same entries stand in both lists.
pub fn are_same_entries(entries: &[EntryId], others: &[EntryId]) -> bool
    ensures { IsTrue result ↔ (entries.now ≡ others.now) }
{
    if entries.len() != others.len() {
        return false;
    }
    for (place, entry) in entries.iter().enumerate() {
        if *entry != others[place] {
            return false;
        }
    }
    true
}

// Whether the same players stand in both lists.
pub fn are_same_players(players: &[PlayerId], others: &[PlayerId]) -> bool
    ensures { IsTrue result ↔ (players.now ≡ others.now) }
{
    if players.len() != others.len() {
        return false;
    }
    for (place, player) in players.iter().enumerate() {
        if *player != others[place] {
            return false;
        }
    }
    true
}

// The same clubs, with copies of their names.
pub fn copy_of_clubs(clubs: &Clubs) -> Result<Clubs, Memory>
    ensures { IfOk result (λ copy. copy ≡ clubs.now) }
{
    let mut copy = Clubs::new(clubs.allocator());
    for (club, name) in clubs.as_slice() {
        copy.push((*club, name.copy()?))?;
    }
    Ok(copy)
}
