// What players did in a gameweek, each written by his own lines.
ghost use Rattle.std.specs.Prelude.{◌≡◌, ◌≤◌, ◌<◌, ◌==◌, ◌++◌, ◌∷◌, [], ℕ, All, IfOk, OnOk, Some, false, filter, length, slice_get, true};
ghost use Rattle.std.specs.List.{list_any};
ghost use Rattle.json_members.specs.Tokens.{Appends, tokens_of};
ghost use Rattle.rule_book.specs.Figures.{IsLine};
ghost use Rattle.season_book.specs.Windows.{listed};
ghost use Rattle.live_windows.specs.Gathered.{own_explained, own_row, own_stats, players_data};

use crate::items::write_items;
use crate::sums::{LiveLine, bonus_of, bps_sum, clean_sheets, points_sum, sum_of, yellow_cards};
use fpl_base::{PlayerId, Position, Profile};
use json::Writer;
use json_members::{write_count, write_integer, write_truth};
use player_market::Players;
use rule_book::Player;
use season_views::Seen;
use std::alloc::{AllocError, Global};
use std::sync::ledger::Ledger;

// Writes all players, by the lines of a gameweek and its team of the week.
pub(crate) fn write_players<L: Ledger>(
    out: &mut Writer,
    alloc: Global,
    seen: &Seen<L>,
    lines: &[LiveLine],
    team: &[PlayerId],
) -> Result<(), AllocError>
    requires few { (p : ℕ) → length (filter (λ line. line.player == p) lines.now) ≤ 20 }
    requires ranges { All (λ line. IsLine line.line) lines.now }
    ensures { Appends result out.old out.new
        (tokens_of (players_data seen.now.facts lines.now team.now)) }
{
    out.begin_object()?;
    out.key("elements")?;
    write_elements(out, alloc, seen, lines, team)?;
    out.end_object()
}

fn write_elements<L: Ledger>(
    out: &mut Writer,
    alloc: Global,
    seen: &Seen<L>,
    lines: &[LiveLine],
    team: &[PlayerId],
) -> Result<(), AllocError>
    requires few { (p : ℕ) → length (filter (λ line. line.player == p) lines.now) ≤ 20 }
    requires ranges { All (λ line. IsLine line.line) lines.now }
    ensures { Appends result out.old out.new
        (tokens_of (listed (own_row seen.now.facts.profile lines.now team.now) seen.now.facts.players)) }
{
    out.begin_array()?;
    for place in 0..seen.players().len() {
        let player = player_at(seen.players(), place);
        write_player(out, alloc, seen.profile(), player, lines, team)?;
    }
    out.end_array()
}

fn player_at(players: &Players, place: usize) -> &Player
    requires { place < length players.now }
    ensures { slice_get players.now place ≡ Some result.now }
{
    match players.at(place) {
        Some(player) => player,
        None => unreachable!(),
    }
}

// Writes a player, by the lines of a gameweek and its team of the week.
fn write_player(
    out: &mut Writer,
    alloc: Global,
    profile: Profile,
    player: &Player,
    lines: &[LiveLine],
    team: &[PlayerId],
) -> Result<(), AllocError>
    requires few { (p : ℕ) → length (filter (λ line. line.player == p) lines.now) ≤ 20 }
    requires ranges { All (λ line. IsLine line.line) lines.now }
    ensures { Appends result out.old out.new
        (tokens_of (own_row profile lines.now team.now player.now)) }
{
    let own = own_of(alloc, lines, player.id)?;
    let is_dreamed = is_among(team, player.id);
    out.begin_object()?;
    out.key("explain")?;
    write_explained(out, profile, player.position, &own)?;
    write_count(out, "id", u64::from(player.id.get()))?;
    out.key("stats")?;
    write_stats(out, profile, player.position, &own, is_dreamed)?;
    out.end_object()
}

// Whether a player is one of these.
fn is_among(players: &[PlayerId], player: PlayerId) -> bool
    ensures { result ≡ list_any (λ other. other == player) players.now }
{
    players.iter().any(|other| *other == player)
}

// The lines of a player.
fn own_of(alloc: Global, lines: &[LiveLine], player: PlayerId) -> Result<Vec<LiveLine>, AllocError>
    ensures { IfOk result (λ own. own.items ≡ filter (λ line. line.player == player) lines.now) }
{
    let mut own = Vec::new(alloc);
    for line in lines {
        keep_own(&mut own, player, line)?;
    }
    Ok(own)
}

// Keeps a line, if it is the player's.
fn keep_own(own: &mut Vec<LiveLine>, player: PlayerId, line: &LiveLine) -> Result<(), AllocError>
    ensures his { OnOk result ((line.now.player == player) ≡ true → own.new.items ≡ own.old.items ++ line.now ∷ []) }
    ensures others { OnOk result ((line.now.player == player) ≡ false → own.new.items ≡ own.old.items) }
{
    if line.player == player {
        own.push(*line)?;
    }
    Ok(())
}

fn write_explained(
    out: &mut Writer,
    profile: Profile,
    position: Position,
    own: &[LiveLine],
) -> Result<(), AllocError>
    ensures { Appends result out.old out.new
        (tokens_of (listed (own_explained profile position) own.now)) }
{
    out.begin_array()?;
    for line in own {
        write_line(out, profile, position, line)?;
    }
    out.end_array()
}

fn write_line(
    out: &mut Writer,
    profile: Profile,
    position: Position,
    own: &LiveLine,
) -> Result<(), AllocError>
    ensures { Appends result out.old out.new
        (tokens_of (own_explained profile position own.now)) }
{
    out.begin_object()?;
    write_count(out, "fixture", u64::from(own.fixture.get()))?;
    out.key("stats")?;
    write_items(out, profile, position, &own.line, own.bonus)?;
    out.end_object()
}

fn write_stats(
    out: &mut Writer,
    profile: Profile,
    position: Position,
    own: &[LiveLine],
    is_dreamed: bool,
) -> Result<(), AllocError>
    requires few { length own.now ≤ 20 }
    requires lines { All (λ line. IsLine line.line) own.now }
    ensures { Appends result out.old out.new
        (tokens_of (own_stats profile position own.now is_dreamed)) }
{
    out.begin_object()?;
    write_count(out, "assists", sum_of(own, 3))?;
    write_count(out, "bonus", bonus_of(own))?;
    write_integer(out, "bps", bps_sum(position, own))?;
    write_count(out, "clean_sheets", clean_sheets(own))?;
    write_count(out, "goals_conceded", sum_of(own, 4))?;
    write_count(out, "goals_scored", sum_of(own, 2))?;
    write_truth(out, "in_dreamteam", is_dreamed)?;
    write_count(out, "minutes", sum_of(own, 1))?;
    write_count(out, "own_goals", sum_of(own, 10))?;
    write_count(out, "penalties_missed", sum_of(own, 7))?;
    write_count(out, "penalties_saved", sum_of(own, 6))?;
    write_count(out, "red_cards", sum_of(own, 9))?;
    write_count(out, "saves", sum_of(own, 5))?;
    write_integer(out, "total_points", points_sum(profile, position, own))?;
    write_count(out, "yellow_cards", yellow_cards(own))?;
    out.end_object()
}
