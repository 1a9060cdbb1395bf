// What is shown of a league.
ghost use Rattle.std.specs.Prelude.{◌≡◌, ◌≤◌, ◌+◌, IfOk};
ghost use Rattle.season_book.specs.LeagueViews.{league_shown};
ghost use Rattle.season_views.specs.Cells.{AreKeptFor};
ghost use Rattle.season_views.specs.Entries.{OfEachBook};
ghost use Rattle.season_views.specs.Leagues.{AreIssued};
ghost use Rattle.season_views.specs.Reads.{reads_of};

use crate::classic::classic;
use crate::head::head;
use crate::seen::{Seen, SeenCells};
use fpl_base::{LeagueId, Memory, ReadCount};
use leagues_and_cups::League;
use rule_book::LeagueKind;
use season_book::Shown;
use std::alloc::Global;
use std::sync::ledger::Ledger;

/// A league with its table over the locked gameweeks from its start on, each row with the name of its entry. It has the
/// number `id` among those that the cells are kept of, and each of its members was issued. Each row of an entry and each
/// cell that it reads is a counted read (docs/RULES.md, "Tables and ranks").
pub fn league<L: Ledger>(
    alloc: Global,
    seen: &Seen<L>,
    cells: &SeenCells<L>,
    id: LeagueId,
    league: &League,
    steps: &mut ReadCount<L>,
) -> Result<Shown, Memory>
    requires profile { seen.now.managers.profile ≡ seen.now.facts.profile }
    requires kept { AreKeptFor seen.now.facts seen.now.managers id league.now cells.now }
    requires issued { AreIssued seen.now.managers league.now.members }
    ensures value { IfOk result (λ shown. OfEachBook seen.now.facts seen.now.managers
        (λ entries. shown ≡ league_shown seen.now.facts entries league.now)) }
    ensures cost { OfEachBook seen.now.facts seen.now.managers
        (λ entries. steps.new ≤ steps.old + reads_of (league_shown seen.now.facts entries league.now)) }
{
    match league.kind() {
        LeagueKind::Classic => Ok(Shown::Classic(classic(alloc, seen, cells, league, steps)?)),
        LeagueKind::Head => Ok(Shown::Head(head(alloc, seen, cells, id, league, steps)?)),
    }
}
