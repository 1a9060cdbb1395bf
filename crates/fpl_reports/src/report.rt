ghost use Rattle.std.specs.Prelude.{IfOk};
ghost use Rattle.fpl_reports.specs.Reports.{HasReport, IsReport};

use crate::entry_report::entry_report;
use crate::season_report::season_report;
use crate::tables::{classic_report, fixture_report, head_report};
use fpl_base::Memory;
use season_book::Shown;
use std::alloc::Global;

/// The report of a view, as comma-separated values with a header: the gameweeks of a season, the lines of a fixture,
/// the table of a league, or the fifteen slots of an entry's gameweek and what it scored. The other views have none.
pub fn report_text(alloc: Global, shown: &Shown) -> Result<Vec<u8>, Memory>
    requires { HasReport shown.now }
    ensures { IfOk result (λ text. IsReport shown.now text.items) }
{
    match shown {
        Shown::Season(season) => season_report(alloc, season),
        Shown::Fixture(fixture) => fixture_report(alloc, fixture),
        Shown::EntryGameweek(entry) => entry_report(alloc, entry),
        Shown::Classic(league) => classic_report(alloc, league),
        Shown::Head(league) => head_report(alloc, league),
        Shown::Player(_) => unreachable!(),
        Shown::PlayerGameweek(_) => unreachable!(),
        Shown::Me(_) => unreachable!(),
        Shown::Cup(_) => unreachable!(),
        Shown::Page(_) => unreachable!(),
    }
}
