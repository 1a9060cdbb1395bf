// The teams that records tell of an entry.
ghost use Rattle.std.specs.Prelude.{◌≡◌, ◌≤◌, ◌++◌, IfOk, OnOk, map};
ghost use Rattle.std.specs.Option.{option_map};
ghost use Rattle.fpl_base.specs.Keeping.{map_of};
ghost use Rattle.rule_book.specs.PlayerFigures.{position_in};
ghost use Rattle.season_restoring.specs.Restoring.{HaveBanks, HasBank, beside, pick_placed, placed, team_placed, teams_told};

use fpl_base::{EntryId, Gw, Memory, PlayerId, Position, Tenths};
use player_market::Players;
use rule_book::{Pick, Team};
use season_records::{Item, Slot};
use std::alloc::Global;
use stored_records::Stored;

/// The gameweek of this number.
pub(crate) fn gameweek(number: u8) -> Gw
    requires first { 1 ≤ number }
    requires last { number ≤ 38 }
    ensures { result ≡ number }
{
    match Gw::new(number) {
        Some(g) => g,
        None => unreachable!(),
    }
}

// Where a player plays; as a goalkeeper where he is not there.
fn position_of(players: &Players, player: PlayerId) -> Position
    ensures { result ≡ position_in players.now player }
{
    match players.get(player) {
        Some(player) => player.position,
        None => Position::Keeper,
    }
}

// A price of a record, in tenths of a million.
fn price(bought: u16) -> Tenths
    ensures { result ≡ bought }
{
    match Tenths::new(u32::from(bought)) {
        Some(price) => price,
        None => unreachable!(),
    }
}

// A player of a record at his position.
fn pick_of(players: &Players, pick: (PlayerId, u16)) -> Pick
    ensures { result ≡ pick_placed (position_in players.now) pick }
{
    Pick {
        player: pick.0,
        position: position_of(players, pick.0),
        bought: price(pick.1),
    }
}

// The fifteen of a record, each at his position.
fn picks_of(players: &Players, picks: &[(PlayerId, u16); 15]) -> [Pick; 15]
    ensures { result ≡ map (pick_placed (position_in players.now)) picks.now }
{
    let mut placed = [pick_of(players, picks[0]); 15];
    for (place, pick) in picks.iter().enumerate() {
        placed[place] = pick_of(players, *pick);
    }
    placed
}

// The team that a record tells, each player at his position.
fn team_in(players: &Players, item: Option<&Item>) -> Option<Team>
    requires { HasBank (option_map (λ item. item.now) item) }
    ensures { result
        ≡ team_placed (position_in players.now) (option_map (λ item. item.now) item.entry) }
{
    match item {
        Some(
            Item::Team {
                picks,
                captain,
                vice,
                bank,
                chip,
                ..
            },
        ) => {
            let bank = Tenths::new(*bank)?;
            Some(Team {
                picks: picks_of(players, picks),
                captain: *captain,
                vice: *vice,
                bank,
                chip: *chip,
            })
        }
        _ => None,
    }
}

// The team of an entry in a gameweek.
fn team_of(stored: &Stored, players: &Players, entry: EntryId, gameweek: Gw) -> Option<Team>
    requires { HaveBanks (map_of stored.now) entry }
    ensures { result ≡ placed (position_in players.now) (map_of stored.now) entry gameweek }
{
    let slot = Slot::Team(entry.get(), u32::from(gameweek.get()));
    team_in(players, stored.item(slot))
}

// Adds the team of a gameweek, where there is one.
fn add_team(
    stored: &Stored,
    players: &Players,
    entry: EntryId,
    gameweek: Gw,
    teams: &mut Vec<(Gw, Team)>,
) -> Result<(), Memory>
    requires { HaveBanks (map_of stored.now) entry }
    ensures { OnOk result
        (teams.new.items
        ≡ teams.old.items
        ++ beside gameweek (placed (position_in players.now) (map_of stored.now) entry gameweek)) }
{
    match team_of(stored, players, entry, gameweek) {
        Some(team) => {
            // Field by field, since the prover wants the type of the picks to be named where a team is added.
            let picks: [Pick; 15] = team.picks;
            let same = Team {
                picks,
                captain: team.captain,
                vice: team.vice,
                bank: team.bank,
                chip: team.chip,
            };
            if teams.push((gameweek, same)).is_err() {
                return Err(Memory);
            }
            Ok(())
        }
        None => Ok(()),
    }
}

/// The teams of an entry by ascending gameweek, each player at the position that he has among the players. It wants
/// banks of at most 1,000,000.0 million, as lawful records have.
pub(crate) fn teams_of(
    alloc: Global,
    stored: &Stored,
    players: &Players,
    entry: EntryId,
) -> Result<Vec<(Gw, Team)>, Memory>
    requires { HaveBanks (map_of stored.now) entry }
    ensures { IfOk result
        (λ teams. teams.items ≡ teams_told (position_in players.now) (map_of stored.now) entry) }
{
    let mut teams = Vec::new(alloc);
    for number in 1..39u8 {
        add_team(stored, players, entry, gameweek(number), &mut teams)?;
    }
    Ok(teams)
}
