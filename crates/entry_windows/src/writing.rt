// An entry's gameweek, written.
ghost use Rattle.std.specs.Prelude.{◌≡◌, ◌==◌, [], if◌then◌else◌, is_some, not, option_copied, List, Some};
ghost use Rattle.json_members.specs.Members.{no_list, text_or_null};
ghost use Rattle.json_members.specs.Tokens.{Appends, member_tokens, tokens_of};
ghost use Rattle.rule_book.specs.History.{Event, chip_at};
ghost use Rattle.rule_book.specs.Teams.{InTeam};
ghost use Rattle.season_book.specs.EntryViews.{player_in_slot};
ghost use Rattle.season_book.specs.Windows.{listed, numbered};
ghost use Rattle.season_book.specs.ChipNames.{chip_name};
ghost use Rattle.season_book.specs.EntryRows.{entry_row_data};
ghost use Rattle.season_book.specs.HistoryWindow.{chip_row, played_row};
ghost use Rattle.season_book.specs.PicksWindow.{factor_at, multiplier, pick_row, picks_data, substitution_row, substitutions};
ghost use Rattle.entry_windows.specs.Told.{told_row};

use crate::shapes::{GameweekRow, Played, does_count};
use fpl_base::{Chip, EntryId, Gw, PlayerId};
use json::Writer;
use json_members::{write_count, write_integer, write_nothing, write_text, write_truth};
use rule_book::{Armband, Pick, Team};
use std::alloc::AllocError;

/// Writes a row as a JSON object.
pub fn write_row(out: &mut Writer, row: &GameweekRow) -> Result<(), AllocError>
    ensures { Appends result out.old out.new (tokens_of (entry_row_data (told_row row.now))) }
{
    out.begin_object()?;
    write_count(out, "bank", u64::from(row.bank.get()))?;
    write_count(out, "event", u64::from(row.event.get()))?;
    write_count(out, "event_transfers", u64::from(row.transfers))?;
    write_count(out, "event_transfers_cost", u64::from(row.cost))?;
    write_count(out, "overall_rank", row.rank)?;
    write_integer(out, "points", row.points)?;
    write_integer(out, "points_on_bench", row.bench)?;
    write_integer(out, "total_points", row.total)?;
    out.end_object()
}

/// Writes an entry's gameweek.
pub fn write_gameweek(
    out: &mut Writer,
    entry: EntryId,
    played: &Played,
    row: &GameweekRow,
) -> Result<(), AllocError>
    ensures { Appends result out.old out.new
        (tokens_of (picks_data entry played.now.team played.now.score (told_row row.now))) }
{
    out.begin_object()?;
    write_chip(out, "active_chip", played.team.chip)?;
    out.key("automatic_subs")?;
    write_substitutions(
        out,
        entry,
        row.event,
        &played.team,
        &played.score.eleven.slots,
    )?;
    out.key("entry_history")?;
    write_row(out, row)?;
    out.key("picks")?;
    write_players(out, played, &played.team.picks)?;
    out.end_object()
}

/// Writes the name of a chip, or `null`.
pub fn write_chip(out: &mut Writer, name: &str, chip: Chip) -> Result<(), AllocError>
    ensures { Appends result out.old out.new (member_tokens name.now (text_or_null (chip_name chip))) }
{
    match chip {
        Chip::None => write_nothing(out, name),
        Chip::Wildcard => write_text(out, name, "wildcard"),
        Chip::FreeHit => write_text(out, name, "freehit"),
        Chip::BenchBoost => write_text(out, name, "bboost"),
        Chip::TripleCaptain => write_text(out, name, "3xc"),
    }
}

// Writes who came in for whom, by the slot of the starter, where these slots stand for the starters.
fn write_substitutions(
    out: &mut Writer,
    entry: EntryId,
    gameweek: Gw,
    team: &Team,
    slots: &[u8; 11],
) -> Result<(), AllocError>
    ensures { Appends result out.old out.new
        (tokens_of (listed (substitution_row team.now entry gameweek) (substitutions slots.now))) }
{
    out.begin_array()?;
    for place in 0..11u8 {
        write_if_replaced(
            out,
            entry,
            gameweek,
            team,
            place + 1,
            slots[usize::from(place)],
        )?;
    }
    out.end_array()
}

// Writes who came in for a starter for whom this slot stands, if it is another.
fn write_if_replaced(
    out: &mut Writer,
    entry: EntryId,
    gameweek: Gw,
    team: &Team,
    starter: u8,
    slot: u8,
) -> Result<(), AllocError>
    ensures { Appends result out.old out.new
        (if not (starter == slot)
        then tokens_of (substitution_row team.now entry gameweek (starter, slot)) else []) }
{
    if starter == slot {
        return Ok(());
    }
    out.begin_object()?;
    write_count(
        out,
        "element_in",
        u64::from(player_in_slot(team, slot).get()),
    )?;
    write_count(
        out,
        "element_out",
        u64::from(player_in_slot(team, starter).get()),
    )?;
    write_count(out, "entry", u64::from(entry.get()))?;
    write_count(out, "event", u64::from(gameweek.get()))?;
    out.end_object()
}

// The player in a slot; the first where the team has no such slot.
fn player_in_slot(team: &Team, slot: u8) -> PlayerId
    ensures { result ≡ player_in_slot team.now.picks slot }
{
    match team.picks.get(usize::from(slot.saturating_sub(1))) {
        Some(pick) => pick.player,
        None => team.picks[0].player,
    }
}

// Writes the players by slot.
fn write_players(out: &mut Writer, played: &Played, picks: &[Pick; 15]) -> Result<(), AllocError>
    ensures { Appends result out.old out.new
        (tokens_of (listed (pick_row played.now.team played.now.score) (numbered picks.now))) }
{
    out.begin_array()?;
    for place in 0..15u8 {
        write_pick(out, played, place + 1, &picks[usize::from(place)])?;
    }
    out.end_array()
}

fn write_pick(out: &mut Writer, played: &Played, slot: u8, pick: &Pick) -> Result<(), AllocError>
    requires { InTeam slot }
    ensures { Appends result out.old out.new
        (tokens_of (pick_row played.now.team played.now.score (slot, pick.now))) }
{
    out.begin_object()?;
    write_count(out, "element", u64::from(pick.player.get()))?;
    write_truth(out, "is_captain", played.team.captain == slot)?;
    write_truth(out, "is_vice_captain", played.team.vice == slot)?;
    write_count(out, "multiplier", u64::from(multiplier(played, slot)))?;
    write_count(out, "position", u64::from(slot))?;
    out.end_object()
}

// How often the points of a slot count.
fn multiplier(played: &Played, slot: u8) -> u8
    requires { InTeam slot }
    ensures { result ≡ multiplier played.now.team played.now.score slot }
{
    if does_count(played, slot) {
        factor_at(played.score.armband, slot)
    } else {
        0
    }
}

fn factor_at(armband: Option<Armband>, slot: u8) -> u8
    ensures { result ≡ factor_at armband slot }
{
    match armband {
        Some(armband) if armband.slot == slot => armband.factor,
        _ => 1,
    }
}

/// Writes a chip with its gameweek, if there is one.
pub fn write_chip_row(out: &mut Writer, gameweek: Gw, chip: Chip) -> Result<(), AllocError>
    ensures { (h : List Event) → chip_at h gameweek ≡ chip
        → Appends result out.old out.new
        (if is_some (chip_name chip) then tokens_of (chip_row h gameweek) else []) }
{
    match chip_word(chip) {
        Some(word) => write_played(out, gameweek, word),
        None => Ok(()),
    }
}

// Writes a gameweek with the name of its chip.
fn write_played(out: &mut Writer, gameweek: Gw, word: &str) -> Result<(), AllocError>
    ensures { Appends result out.old out.new
        (tokens_of (played_row gameweek (Some word.now))) }
{
    out.begin_object()?;
    write_count(out, "event", u64::from(gameweek.get()))?;
    write_text(out, "name", word)?;
    out.end_object()
}

// The name of a chip.
fn chip_word(chip: Chip) -> Option<&'static str>
    ensures { option_copied result ≡ chip_name chip }
{
    match chip {
        Chip::None => None,
        Chip::Wildcard => Some("wildcard"),
        Chip::FreeHit => Some("freehit"),
        Chip::BenchBoost => Some("bboost"),
        Chip::TripleCaptain => Some("3xc"),
    }
}

/// Writes a list of nothing.
pub fn write_empty(out: &mut Writer) -> Result<(), AllocError>
    ensures { Appends result out.old out.new (tokens_of no_list) }
{
    out.begin_array()?;
    out.end_array()
}
