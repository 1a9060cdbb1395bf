// All that the window shows.
ghost use Rattle.std.specs.Prelude.{◌≡◌, ◌≤◌, ◌+◌, Some, length, if◌then◌else◌};
ghost use Rattle.json_members.specs.Tokens.{tokens_of};
ghost use Rattle.rule_book.specs.Entries.{entry_in};
ghost use Rattle.rule_book.specs.HistoryRules.{is_started};
ghost use Rattle.season_book.specs.Book.{EntryFacts};
ghost use Rattle.season_views.specs.Seen.{IsKept, OfEachSeen, ShowsEach, WritesEach};
ghost use Rattle.season_book.specs.Bootstrap.{bootstrap_window, registered};
ghost use Rattle.season_views.specs.BootstrapReads.{bootstrap_reads};

use crate::element_types::write_element_types;
use crate::elements::write_elements;
use crate::events::write_events;
use crate::teams::write_teams;
use fpl_base::{ClubId, EntryId, Memory, Name, ReadCount};
use json::Writer;
use json_members::write_count;
use season_entries::entries_are_issued;
use season_views::{Seen, SeenCells};
use std::alloc::{AllocError, Global};
use std::sync::ledger::Ledger;

/// Writes what the page of a season begins with, which is always there: the positions, the players, the gameweeks, the
/// clubs, and how many play. Each line, each player's last locked gameweek, each entry's team of it, and each entry's
/// locked gameweek is read once.
pub fn write_bootstrap<L: Ledger>(
    out: &mut Writer,
    alloc: Global,
    seen: &Seen<L>,
    cells: &SeenCells<L>,
    steps: &mut ReadCount<L>,
) -> Result<bool, Memory>
    requires kept { IsKept seen.now cells.now }
    ensures value { ShowsEach seen.now (λ entries. Some (bootstrap_window seen.now.facts entries))
        result out.old out.new }
    ensures cost { OfEachSeen seen.now
        (λ entries. steps.new ≤ steps.old + bootstrap_reads seen.now.facts (length entries)) }
{
    let clubs = seen.clubs()?;
    write_parts(out, alloc, seen, cells, clubs.as_slice(), steps)?;
    Ok(true)
}

fn write_parts<L: Ledger>(
    out: &mut Writer,
    alloc: Global,
    seen: &Seen<L>,
    cells: &SeenCells<L>,
    clubs: &[(ClubId, Name)],
    steps: &mut ReadCount<L>,
) -> Result<(), AllocError>
    requires kept { IsKept seen.now cells.now }
    requires clubs { clubs.now ≡ seen.now.facts.clubs }
    ensures value { WritesEach seen.now (λ entries. bootstrap_window seen.now.facts entries) result
        out.old out.new }
    ensures cost { steps.new
        ≤ steps.old + bootstrap_reads seen.now.facts (length seen.now.managers.managers) }
{
    out.begin_object()?;
    out.key("element_types")?;
    write_element_types(out, seen.players())?;
    out.key("elements")?;
    write_elements(out, alloc, seen, cells, steps)?;
    out.key("events")?;
    write_events(out, alloc, seen, cells, steps)?;
    out.key("teams")?;
    write_teams(out, alloc, clubs)?;
    write_count(out, "total_players", registered(seen))?;
    out.end_object()
}

// How many entries are registered.
fn registered<L: Ledger>(seen: &Seen<L>) -> u64
    ensures { OfEachSeen seen.now (λ entries. result ≡ registered entries) }
{
    // The law on which entries are there, for the prover.
    entries_are_issued();
    let mut many = 0;
    for place in 0..seen.entries() {
        many += one_registered(seen, EntryId::new(place + 1).unwrap());
    }
    many
}

// 1 where an entry is registered.
fn one_registered<L: Ledger>(seen: &Seen<L>, entry: EntryId) -> u64
    requires { entry ≤ length seen.now.managers.managers }
    ensures value { OfEachSeen seen.now
        (λ entries. (row : EntryFacts) → entry_in entries entry ≡ Some row
        → result ≡ (if is_started row.history then 1 else 0)) }
    ensures bound { result ≤ 1 }
{
    one_if(seen.entry(entry).first.is_some())
}

fn one_if(truth: bool) -> u64
    ensures value { result ≡ (if truth then 1 else 0) }
    ensures bound { result ≤ 1 }
{
    if truth { 1 } else { 0 }
}
