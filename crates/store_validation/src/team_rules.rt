// The rules on the team of an entry in a gameweek.
ghost use Rattle.std.specs.Prelude.{◌≡◌, ◌==◌, map};
ghost use Rattle.std.specs.List.{list_any};
ghost use Rattle.fpl_base.specs.Keeping.{map_of};
ghost use Rattle.stored_records.specs.EntryTold.{is_first_of, is_in_time};
ghost use Rattle.stored_records.specs.SeasonRules.{terms_told};
ghost use Rattle.stored_records.specs.Stored.{split_told};
ghost use Rattle.store_validation.specs.TeamRules.{has_players, is_distinct, is_fit, is_lined_up, is_playable, is_played_again, is_priced, position_told, positions_told, is_lawful_team};

use fpl_base::{Chip, EntryId, Gw, Position};
use player_market::is_price;
use season_records::{Item, Slot};
use squad_rules::{check_lineup, half_of, has_squad_shape, is_same_chip, makes_free};
use stored_records::{
    RecordedTeam, Stored, Terms, chip_of, first_of, goes_on, is_first, is_in_time,
};

// Whether each of the players is there.
fn has_players(stored: &Stored, picks: &[(u32, u32); 15]) -> bool
    ensures { result ≡ has_players (map_of stored.now) picks.now }
{
    'picks: for pick in picks {
        if !stored.has(Slot::Player(pick.0)) {
            return false;
        }
    }
    true
}

// Whether each of the prices can be.
fn is_priced(picks: &[(u32, u32); 15]) -> bool
    ensures { result ≡ is_priced picks.now }
{
    'picks: for pick in picks {
        if !is_price(pick.1) {
            return false;
        }
    }
    true
}

// Whether a player stands among picks.
fn is_among(picks: &[(u32, u32)], player: u32) -> bool
    ensures { result ≡ list_any (λ other. other == player) (map (λ pick. pick.0) picks.now) }
{
    'picks: for pick in picks {
        if pick.0 == player {
            return true;
        }
    }
    false
}

// Whether no player stands twice.
fn is_distinct(picks: &[(u32, u32); 15]) -> bool
    ensures { result ≡ is_distinct picks.now }
{
    for (place, pick) in picks.iter().enumerate() {
        if is_among(&picks[place + 1..], pick.0) {
            return false;
        }
    }
    true
}

// The position of a player; that of a goalkeeper where he is not there.
fn position_of(stored: &Stored, player: u32) -> Position
    ensures { result ≡ position_told (map_of stored.now) player }
{
    match stored.item(Slot::Player(player)) {
        Some(Item::Player { position, .. }) => *position,
        _ => Position::Keeper,
    }
}

// The positions by slot.
fn positions_of(stored: &Stored, picks: &[(u32, u32); 15]) -> [Position; 15]
    ensures { result ≡ positions_told (map_of stored.now) picks.now }
{
    let mut positions = [Position::Keeper; 15];
    for (place, pick) in picks.iter().enumerate() {
        positions[place] = position_of(stored, pick.0);
    }
    positions
}

// Whether they are a squad in a lineup that nothing refuses.
fn is_lined_up(positions: &[Position; 15], captain: u8, vice: u8) -> bool
    ensures { result ≡ is_lined_up positions.now captain vice }
{
    has_squad_shape(positions) && check_lineup(positions, captain, vice).is_ok()
}

// Whether an earlier team has this chip: a wildcard in the same half.
fn is_played_again(stored: &Stored, split: u8, entry: EntryId, gameweek: Gw, chip: Chip) -> bool
    requires { split ≡ split_told (map_of stored.now) }
    ensures { result ≡ is_played_again (map_of stored.now) entry gameweek chip }
{
    if is_same_chip(chip, Chip::None) {
        return false;
    }
    let g = gameweek.get();
    let from = half_of(split, chip, g);
    for w in from..g {
        if is_same_chip(chip, chip_of(stored, entry, w)) {
            return true;
        }
    }
    false
}

// Whether the fifteen and their lineup break a rule.
fn is_fit(stored: &Stored, team: &RecordedTeam) -> bool
    ensures { result ≡ is_fit (map_of stored.now) team.now }
{
    has_players(stored, &team.picks)
        && is_priced(&team.picks)
        && is_distinct(&team.picks)
        && is_lined_up(&positions_of(stored, &team.picks), team.captain, team.vice)
}

// Whether the chip of a team can be played.
fn is_playable(
    stored: &Stored,
    split: u8,
    first: bool,
    entry: EntryId,
    gameweek: Gw,
    chip: Chip,
) -> bool
    requires split { split ≡ split_told (map_of stored.now) }
    requires first { first ≡ is_first_of (map_of stored.now) entry gameweek }
    ensures { result ≡ is_playable (map_of stored.now) entry gameweek chip }
{
    !(first && makes_free(chip)) && !is_played_again(stored, split, entry, gameweek, chip)
}

// Whether a gameweek is an entry's first.
fn opens(stored: &Stored, entry: EntryId, gameweek: Gw) -> bool
    ensures { result ≡ is_first_of (map_of stored.now) entry gameweek }
{
    is_first(first_of(stored, entry.get()), gameweek)
}

// Whether a gameweek is in an entry's time.
fn is_its_time(stored: &Stored, terms: &Terms, entry: EntryId, gameweek: Gw) -> bool
    requires { terms.now ≡ terms_told (map_of stored.now) }
    ensures { result ≡ is_in_time (map_of stored.now) entry gameweek }
{
    is_in_time(terms, first_of(stored, entry.get()), gameweek)
}

/// Whether a team is lawful.
pub(crate) fn is_lawful_team(
    stored: &Stored,
    terms: &Terms,
    entry: EntryId,
    gameweek: Gw,
    team: &RecordedTeam,
) -> bool
    requires { terms.now ≡ terms_told (map_of stored.now) }
    ensures { result ≡ is_lawful_team (map_of stored.now) entry gameweek team.now }
{
    let first = opens(stored, entry, gameweek);
    is_its_time(stored, terms, entry, gameweek)
        && is_fit(stored, team)
        && is_playable(stored, terms.split, first, entry, gameweek, team.chip)
        && goes_on(stored, first, entry, gameweek, team)
}
