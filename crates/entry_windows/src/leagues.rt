// The leagues of an entry.
ghost use Rattle.std.specs.Prelude.{◌≡◌, ◌≤◌, ◌+◌, [], Some, sum_by, true, if◌then◌else◌};
ghost use Rattle.rule_book.specs.Entries.{entry_in};
ghost use Rattle.rule_book.specs.LeagueCalls.{is_member};
ghost use Rattle.rule_book.specs.Leagues.{LeagueFacts};
ghost use Rattle.season_book.specs.Windows.{listed};
ghost use Rattle.season_views.specs.Seen.{IsKept, OfEachSeen};
ghost use Rattle.json_members.specs.Tokens.{tokens_of};
ghost use Rattle.league_windows.specs.Openings.{WritesData};
ghost use Rattle.entry_windows.specs.EntryLeagues.{is_of_kind, league_reads, league_told, leagues_of_kind};
ghost use Rattle.entry_windows.specs.EntryTokens.{WritesTokens};
ghost use Rattle.season_book.specs.EntryWindow.{entry_leagues_told};
ghost use Rattle.season_views.specs.EntryWindowReads.{classic_league_reads, head_league_reads};

use crate::entry_writing::write_league;
use crate::event_ranks::ranks_in;
use fpl_base::{EntryId, LeagueId, Memory, ReadCount};
use json::Writer;
use leagues_and_cups::League;
use rule_book::LeagueKind;
use season_views::{Seen, SeenCells};
use std::alloc::Global;
use std::sync::ledger::Ledger;

/// Writes the leagues that an entry is in, those of each kind by number.
pub fn write_leagues<L: Ledger>(
    out: &mut Writer,
    alloc: Global,
    seen: &Seen<L>,
    cells: &SeenCells<L>,
    entry: EntryId,
    steps: &mut ReadCount<L>,
) -> Result<(), Memory>
    requires kept { IsKept seen.now cells.now }
    ensures value { OfEachSeen seen.now
        (λ entries. WritesData (entry_leagues_told seen.now.facts entries seen.now.leagues entry) result
        out.old out.new) }
    ensures cost { steps.new
        ≤ steps.old + (sum_by (classic_league_reads entry) seen.now.leagues
        + sum_by (head_league_reads entry) seen.now.leagues) }
{
    out.begin_object()?;
    out.key("classic")?;
    write_of_kind(out, alloc, seen, cells, LeagueKind::Classic, entry, steps)?;
    out.key("h2h")?;
    write_of_kind(out, alloc, seen, cells, LeagueKind::Head, entry, steps)?;
    out.end_object()?;
    Ok(())
}

// Writes those of a kind.
fn write_of_kind<L: Ledger>(
    out: &mut Writer,
    alloc: Global,
    seen: &Seen<L>,
    cells: &SeenCells<L>,
    kind: LeagueKind,
    entry: EntryId,
    steps: &mut ReadCount<L>,
) -> Result<(), Memory>
    requires kept { IsKept seen.now cells.now }
    ensures value { OfEachSeen seen.now
        (λ entries. WritesData
        (listed (league_told kind seen.now.facts entries entry)
        (leagues_of_kind kind seen.now.leagues entry)) result out.old out.new) }
    ensures cost { steps.new ≤ steps.old + sum_by (league_reads kind entry) seen.now.leagues }
{
    out.begin_array()?;
    for id in seen.leagues().leagues_of(entry) {
        write_if_of_kind(out, alloc, seen, cells, kind, *id, entry, steps)?;
    }
    out.end_array()?;
    Ok(())
}

// Writes the league of a number, of which the entry is a member, where it is of a kind.
fn write_if_of_kind<L: Ledger>(
    out: &mut Writer,
    alloc: Global,
    seen: &Seen<L>,
    cells: &SeenCells<L>,
    kind: LeagueKind,
    id: LeagueId,
    entry: EntryId,
    steps: &mut ReadCount<L>,
) -> Result<(), Memory>
    requires kept { IsKept seen.now cells.now }
    requires member { (league : LeagueFacts) → entry_in seen.now.leagues id ≡ Some league
        → is_member league entry ≡ true }
    ensures value { OfEachSeen seen.now
        (λ entries. (league : LeagueFacts) → entry_in seen.now.leagues id ≡ Some league
        → WritesTokens
        (if is_of_kind kind league
        then tokens_of (league_told kind seen.now.facts entries entry (id, league)) else [])
        result out.old out.new) }
    ensures cost { (league : LeagueFacts) → entry_in seen.now.leagues id ≡ Some league
        → steps.new ≤ steps.old + league_reads kind entry league }
{
    match seen.leagues().get(id) {
        Some(league) => {
            if !is_of_kind(kind, league) {
                return Ok(());
            }
            let ranks = ranks_in(alloc, seen, cells, id, league, entry, steps)?;
            write_league(out, id, league, entry, ranks)?;
            Ok(())
        }
        None => Ok(()),
    }
}

fn is_of_kind(kind: LeagueKind, league: &League) -> bool
    ensures value { result ≡ is_of_kind kind league.now }
    ensures same { result ≡ true → kind ≡ league.now.kind }
{
    match (kind, league.kind()) {
        (LeagueKind::Classic, LeagueKind::Classic) => true,
        (LeagueKind::Head, LeagueKind::Head) => true,
        _ => false,
    }
}
