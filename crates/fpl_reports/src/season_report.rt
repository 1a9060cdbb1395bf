// The report of a season: its gameweeks.
ghost use Rattle.std.specs.Prelude.{◌≡◌, IfOk};
ghost use Rattle.fpl_reports.specs.Reports.{IsSeasonReport, PutsGameweek, mark};

use crate::lines::{Report, number};
use fpl_base::{Memory, Moment};
use season_book::ShownSeason;
use season_calendar::instant_text;
use std::alloc::Global;

pub(crate) fn season_report(alloc: Global, season: &ShownSeason) -> Result<Vec<u8>, Memory>
    ensures { IfOk result (λ text. IsSeasonReport season.now text.items) }
{
    let mut report = Report::new(alloc).with(&[
        "gameweek".as_bytes(),
        "deadline".as_bytes(),
        "locked".as_bytes(),
    ])?;
    let mut gameweek = 0u64;
    for deadline in season.deadlines.as_slice() {
        gameweek += 1;
        report = put_gameweek(alloc, report, gameweek, *deadline, season.locked)?;
    }
    report.text()
}

fn put_gameweek(
    alloc: Global,
    report: Report,
    gameweek: u64,
    deadline: Moment,
    locked: u8,
) -> Result<Report, Memory>
    ensures { IfOk result (PutsGameweek locked gameweek deadline report) }
{
    let number_text = number(alloc, gameweek)?;
    let instant = instant_text(deadline);
    let is_locked = marked(gameweek <= u64::from(locked));
    report.with(&[number_text.as_bytes(), &instant, is_locked])
}

// 1 for yes, 0 for no.
pub(crate) fn marked(yes: bool) -> &'static [u8]
    ensures { result.now ≡ mark yes }
{
    if yes { b"1" } else { b"0" }
}
