// The reports of leagues and fixtures.
ghost use Rattle.std.specs.Prelude.{◌≡◌, ◌∷◌, IfOk, map};
ghost use Rattle.fpl_reports.specs.Reports.{rows_text, classic_header, classic_row, head_header, head_row, fixture_header, fixture_row};

use crate::lines::{Line, Report, number, put_lines, signed};
use fpl_base::Memory;
use season_book::{ShownClassic, ShownFixture, ShownHead, ShownHeadRanked, ShownLine, ShownRanked};
use std::alloc::Global;

impl Line for ShownRanked {
    ghost fields = { classic_row };

    fn put(&self, alloc: Global, report: Report) -> Result<Report, Memory> {
        let rank = number(alloc, u64::from(self.row.rank))?;
        let entry = number(alloc, u64::from(self.row.entry.get()))?;
        let total = signed(alloc, self.row.total)?;
        let transfers = number(alloc, u64::from(self.row.transfers))?;
        report.with(&[
            rank.as_bytes(),
            entry.as_bytes(),
            self.name.bytes(),
            total.as_bytes(),
            transfers.as_bytes(),
        ])
    }
}

impl Line for ShownHeadRanked {
    ghost fields = { head_row };

    fn put(&self, alloc: Global, report: Report) -> Result<Report, Memory> {
        let score = &self.row.score;
        let rank = number(alloc, u64::from(self.row.rank))?;
        let entry = number(alloc, u64::from(self.row.entry.get()))?;
        let points = number(alloc, u64::from(score.points))?;
        let won = number(alloc, u64::from(score.won))?;
        let drawn = number(alloc, u64::from(score.drawn))?;
        let lost = number(alloc, u64::from(score.lost))?;
        let scored = signed(alloc, score.scored)?;
        report.with(&[
            rank.as_bytes(),
            entry.as_bytes(),
            self.name.bytes(),
            points.as_bytes(),
            won.as_bytes(),
            drawn.as_bytes(),
            lost.as_bytes(),
            scored.as_bytes(),
        ])
    }
}

impl Line for ShownLine {
    ghost fields = { fixture_row };

    fn put(&self, alloc: Global, report: Report) -> Result<Report, Memory> {
        let player = number(alloc, u64::from(self.player.get()))?;
        let points = signed(alloc, self.points)?;
        let bps = signed(alloc, self.bps)?;
        let bonus = number(alloc, u64::from(self.bonus))?;
        report.with(&[
            player.as_bytes(),
            points.as_bytes(),
            bps.as_bytes(),
            bonus.as_bytes(),
        ])
    }
}

pub(crate) fn classic_report(alloc: Global, league: &ShownClassic) -> Result<Vec<u8>, Memory>
    ensures { IfOk result (λ text.
        text.items ≡ rows_text (classic_header ∷ map classic_row league.now.rows)) }
{
    let report = Report::new(alloc).with(&[
        "rank".as_bytes(),
        "entry".as_bytes(),
        "name".as_bytes(),
        "total".as_bytes(),
        "transfers".as_bytes(),
    ])?;
    put_lines(alloc, report, league.rows.as_slice())?.text()
}

pub(crate) fn head_report(alloc: Global, league: &ShownHead) -> Result<Vec<u8>, Memory>
    ensures { IfOk result (λ text.
        text.items ≡ rows_text (head_header ∷ map head_row league.now.rows)) }
{
    let report = Report::new(alloc).with(&[
        "rank".as_bytes(),
        "entry".as_bytes(),
        "name".as_bytes(),
        "points".as_bytes(),
        "won".as_bytes(),
        "drawn".as_bytes(),
        "lost".as_bytes(),
        "scored".as_bytes(),
    ])?;
    put_lines(alloc, report, league.rows.as_slice())?.text()
}

pub(crate) fn fixture_report(alloc: Global, fixture: &ShownFixture) -> Result<Vec<u8>, Memory>
    ensures { IfOk result (λ text.
        text.items ≡ rows_text (fixture_header ∷ map fixture_row fixture.now.lines)) }
{
    let report = Report::new(alloc).with(&[
        "player".as_bytes(),
        "points".as_bytes(),
        "bps".as_bytes(),
        "bonus".as_bytes(),
    ])?;
    put_lines(alloc, report, fixture.lines.as_slice())?.text()
}
