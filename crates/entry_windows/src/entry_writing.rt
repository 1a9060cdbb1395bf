// An entry, written.
ghost use Rattle.std.specs.Prelude.{◌≡◌, ◌==◌, Option, Some, None};
ghost use Rattle.std.specs.Option.{option_map};
ghost use Rattle.json_members.specs.Tokens.{Appends, tokens_of};
ghost use Rattle.entry_windows.specs.EntryTokens.{opening_of, summary_tokens};
ghost use Rattle.season_book.specs.EntryWindow.{entry_league_told};

use crate::event_ranks::LeagueRanks;
use crate::summary::Summary;
use fpl_base::{EntryId, Gw, LeagueId};
use json::Writer;
use json_members::{
    text_of, write_count, write_count_or_null, write_integer_or_null, write_text, write_truth,
};
use league_windows::{bound_told, scoring_of};
use leagues_and_cups::League;
use std::alloc::AllocError;

/// Writes a league of an entry with the entry's ranks in it.
pub fn write_league(
    out: &mut Writer,
    id: LeagueId,
    league: &League,
    entry: EntryId,
    ranks: LeagueRanks,
) -> Result<(), AllocError>
    ensures { Appends result out.old out.new
        (tokens_of (entry_league_told entry ranks.last ranks.current (id, league.now))) }
{
    out.begin_object()?;
    write_count(out, "admin_entry", u64::from(league.creator().get()))?;
    write_truth(out, "entry_can_admin", is_creator(league, entry))?;
    write_count(out, "entry_last_rank", u64::from(ranks.last))?;
    write_count(out, "entry_rank", ranks.current)?;
    write_count(out, "id", u64::from(id.get()))?;
    write_text(out, "league_type", "x")?;
    write_count_or_null(out, "max_entries", bound_told(league.kind()))?;
    write_text(out, "name", text_of(league.name()))?;
    write_text(out, "scoring", scoring_of(league.kind()))?;
    write_count(out, "start_event", u64::from(league.start().get()))?;
    out.end_object()
}

// Whether an entry made a league.
fn is_creator(league: &League, entry: EntryId) -> bool
    ensures { result ≡ (league.now.creator == entry) }
{
    league.creator() == entry
}

/// Opens an entry, up to its leagues.
pub fn begin_entry(
    out: &mut Writer,
    entry: EntryId,
    last: Option<Gw>,
    transfers: u32,
    summary: &Option<Summary>,
) -> Result<(), AllocError>
    ensures { Appends result out.old out.new
        (opening_of entry last (option_map (λ s. s.bank) summary.now) transfers) }
{
    out.begin_object()?;
    write_count_or_null(out, "current_event", number_of(last))?;
    write_count(out, "id", u64::from(entry.get()))?;
    write_count_or_null(out, "last_deadline_bank", bank_of(summary))?;
    write_count(out, "last_deadline_total_transfers", u64::from(transfers))?;
    out.key("leagues")
}

fn number_of(gameweek: Option<Gw>) -> Option<u64>
    ensures { result ≡ gameweek }
{
    match gameweek {
        Some(gameweek) => Some(u64::from(gameweek.get())),
        None => None,
    }
}

fn bank_of(summary: &Option<Summary>) -> Option<u64>
    ensures { result ≡ option_map (λ s. s.bank) summary.now }
{
    match summary {
        Some(summary) => Some(u64::from(summary.bank.get())),
        None => None,
    }
}

/// Writes the points and ranks of an entry, and ends it.
pub fn end_entry(out: &mut Writer, summary: &Option<Summary>) -> Result<(), AllocError>
    ensures { Appends result out.old out.new (summary_tokens summary.now) }
{
    write_integer_or_null(out, "summary_event_points", points_of(summary))?;
    write_count_or_null(out, "summary_event_rank", rank_of(summary))?;
    write_integer_or_null(out, "summary_overall_points", total_of(summary))?;
    write_count_or_null(out, "summary_overall_rank", overall_of(summary))?;
    out.end_object()
}

fn points_of(summary: &Option<Summary>) -> Option<i32>
    ensures { result ≡ option_map (λ s. s.points) summary.now }
{
    match summary {
        Some(summary) => Some(summary.points),
        None => None,
    }
}

fn rank_of(summary: &Option<Summary>) -> Option<u64>
    ensures { result ≡ option_map (λ s. s.rank) summary.now }
{
    match summary {
        Some(summary) => Some(summary.rank),
        None => None,
    }
}

fn total_of(summary: &Option<Summary>) -> Option<i32>
    ensures { result ≡ option_map (λ s. s.total) summary.now }
{
    match summary {
        Some(summary) => Some(summary.total),
        None => None,
    }
}

fn overall_of(summary: &Option<Summary>) -> Option<u64>
    ensures { result ≡ option_map (λ s. s.overall) summary.now }
{
    match summary {
        Some(summary) => Some(summary.overall),
        None => None,
    }
}
