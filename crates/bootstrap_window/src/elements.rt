// The players, as a window shows them.
ghost use Rattle.std.specs.Prelude.{◌≡◌, ◌≤◌, ◌<◌, ◌+◌, Some, is_some, length, slice_get, true};
ghost use Rattle.rule_book.specs.Players.{player_of};
ghost use Rattle.json_members.specs.Tokens.{Appends, all_member_tokens, tokens_of};
ghost use Rattle.season_views.specs.Seen.{IsKept, WritesEach};
ghost use Rattle.season_views.specs.BootstrapReads.{lines_reads};
ghost use Rattle.season_book.specs.Elements.{element_data, element_with, elements_window, points_now, status_of};
ghost use Rattle.bootstrap_window.specs.Parts.{first_members, fourth_members, second_members, third_members};
ghost use Rattle.bootstrap_window.specs.Tables.{count_in, told, totals_in};

use crate::decimals::{decimal_text, share_text};
use crate::element_types::position_number;
use crate::holders::{Holders, count_in, holders_now};
use crate::table::{Table, table_of, totals_in};
use crate::totals::Totals;
use fpl_base::{Gw, PlayerId, ReadCount};
use json::Writer;
use json_members::{text_of, write_count, write_integer, write_nothing, write_text};
use player_market::Players;
use rule_book::Player;
use season_views::{Seen, SeenCells, gameweek_held};
use std::alloc::{AllocError, Global};
use std::sync::ledger::Ledger;

/// The players, each with what he has of his lines. Each line, and each player's last locked gameweek, is read once.
pub(crate) fn write_elements<L: Ledger>(
    out: &mut Writer,
    alloc: Global,
    seen: &Seen<L>,
    cells: &SeenCells<L>,
    steps: &mut ReadCount<L>,
) -> Result<(), AllocError>
    requires { IsKept seen.now cells.now }
    ensures value { WritesEach seen.now (λ entries. elements_window seen.now.facts entries) result
        out.old out.new }
    ensures cost { steps.new
        ≤ steps.old + (lines_reads seen.now.facts
        + (length seen.now.managers.managers + length seen.now.facts.players)) }
{
    let table = table_of(alloc, seen, cells, steps)?;
    let holders = holders_now(alloc, seen, steps)?;
    out.begin_array()?;
    for place in 0..seen.players().len() {
        let player = player_at(seen.players(), place);
        let points = points_now(seen, cells, player.id, steps);
        write_element(out, alloc, player, &table, points, &holders)?;
    }
    out.end_array()
}

fn player_at(players: &Players, place: usize) -> &Player
    requires { place < length players.now }
    ensures { slice_get players.now place ≡ Some result.now }
{
    match players.at(place) {
        Some(player) => player,
        None => unreachable!(),
    }
}

// A player's points in the gameweek that was locked last; none before the first.
fn points_now<L: Ledger>(
    seen: &Seen<L>,
    cells: &SeenCells<L>,
    player: PlayerId,
    steps: &mut ReadCount<L>,
) -> i32
    requires kept { IsKept seen.now cells.now }
    requires there { is_some (player_of seen.now.facts.players player) ≡ true }
    ensures value { result ≡ points_now seen.now.facts player }
    ensures cost { steps.new ≤ steps.old + 1 }
{
    let locked = seen.calendar().locked();
    if locked == 0 {
        return 0;
    }
    let gameweek = Gw::new(locked).unwrap();
    gameweek_held(cells, player, gameweek, steps).points
}

// A player with what a table has of his lines, these points, and those who hold him.
fn write_element(
    out: &mut Writer,
    alloc: Global,
    player: &Player,
    table: &Table,
    points: i32,
    holders: &Holders,
) -> Result<(), AllocError>
    ensures { Appends result out.old out.new
        (tokens_of (element_data player.now (told (totals_in table.now player.now.id)) points
        (count_in holders.now.counts player.now.id) holders.now.entries)) }
{
    let totals = totals_in(table, player.id);
    let average = decimal_text(alloc, totals.points, totals.played)?;
    let share = share_text(alloc, count_in(&holders.counts, player.id), holders.entries)?;
    write_members(
        out,
        player,
        &totals,
        points,
        average.as_str(),
        share.as_str(),
    )
}

// A player with what he has of his lines, these points, and the texts of his average and of the share of those who hold
// him.
fn write_members(
    out: &mut Writer,
    player: &Player,
    totals: &Totals,
    points: i32,
    average: &str,
    share: &str,
) -> Result<(), AllocError>
    ensures { Appends result out.old out.new
        (tokens_of (element_with player.now (told totals.now) points average.now share.now)) }
{
    out.begin_object()?;
    write_first(out, player, totals)?;
    write_second(out, player, totals, points)?;
    write_third(out, player, totals, average)?;
    write_fourth(out, player, totals, share)?;
    out.end_object()
}

fn write_first(out: &mut Writer, player: &Player, totals: &Totals) -> Result<(), AllocError>
    ensures { Appends result out.old out.new
        (all_member_tokens (first_members player.now (told totals.now))) }
{
    write_count(out, "assists", u64::from(totals.assists))?;
    write_count(out, "bonus", u64::from(totals.bonus))?;
    write_integer(out, "bps", totals.bps)?;
    write_nothing(out, "chance_of_playing_next_round")?;
    write_nothing(out, "chance_of_playing_this_round")?;
    write_count(out, "clean_sheets", u64::from(totals.clean_sheets))?;
    write_count(out, "code", u64::from(player.id.get()))
}

fn write_second(
    out: &mut Writer,
    player: &Player,
    totals: &Totals,
    points: i32,
) -> Result<(), AllocError>
    ensures { Appends result out.old out.new
        (all_member_tokens (second_members player.now (told totals.now) points)) }
{
    write_count(out, "element_type", position_number(player.position))?;
    write_integer(out, "event_points", points)?;
    write_text(out, "first_name", "")?;
    write_count(out, "goals_conceded", u64::from(totals.conceded))?;
    write_count(out, "goals_scored", u64::from(totals.goals))?;
    write_count(out, "id", u64::from(player.id.get()))?;
    write_count(out, "minutes", u64::from(totals.minutes))?;
    write_text(out, "news", "")
}

fn write_third(
    out: &mut Writer,
    player: &Player,
    totals: &Totals,
    average: &str,
) -> Result<(), AllocError>
    ensures { Appends result out.old out.new
        (all_member_tokens (third_members player.now (told totals.now) average.now)) }
{
    write_count(out, "now_cost", u64::from(player.price.get()))?;
    write_count(out, "own_goals", u64::from(totals.own_goals))?;
    write_count(out, "penalties_missed", u64::from(totals.penalties_missed))?;
    write_count(out, "penalties_saved", u64::from(totals.penalties_saved))?;
    write_text(out, "photo", "")?;
    write_text(out, "points_per_game", average)?;
    write_count(out, "red_cards", u64::from(totals.red_cards))?;
    write_count(out, "saves", u64::from(totals.saves))
}

fn write_fourth(
    out: &mut Writer,
    player: &Player,
    totals: &Totals,
    share: &str,
) -> Result<(), AllocError>
    ensures { Appends result out.old out.new
        (all_member_tokens (fourth_members player.now (told totals.now) share.now)) }
{
    write_text(out, "second_name", text_of(&player.name))?;
    write_text(out, "selected_by_percent", share)?;
    write_text(out, "status", status_of(player.gone))?;
    write_count(out, "team", u64::from(player.club.get()))?;
    write_count(out, "team_code", u64::from(player.club.get()))?;
    write_integer(out, "total_points", totals.points)?;
    write_text(out, "web_name", text_of(&player.name))?;
    write_count(out, "yellow_cards", u64::from(totals.yellow_cards))
}

fn status_of(gone: bool) -> &'static str
    ensures { result.now ≡ status_of gone }
{
    if gone { "u" } else { "a" }
}
