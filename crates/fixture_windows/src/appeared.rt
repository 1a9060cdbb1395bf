// The players of a match, with the figures by which a match is told.
ghost use Rattle.std.specs.Prelude.{◌≡◌, ◌≤◌, ◌-◌, IfOk, map, pos};
ghost use Rattle.rule_book.specs.Figures.{IsLine, figure};
ghost use Rattle.rule_book.specs.MatchFacts.{lines_of};
ghost use Rattle.rule_book.specs.PlayerFigures.{bonus_at, position_in};
ghost use Rattle.rule_book.specs.Points.{counted_yellow};
ghost use Rattle.fixture_windows.specs.Appeared.{appeared_of};
ghost use Rattle.fixture_windows.specs.MatchRows.{IsMatch};

use crate::matches::Match;
use crate::sides::{Side, side_of};
use fpl_base::{PlayerId, Position};
use rule_book::{Fixture, Line};
use scoring::bps;
use season_rules::bonus_among;
use season_views::Seen;
use std::alloc::{AllocError, Global};
use std::sync::ledger::Ledger;

// How many figures a match is told by.
pub(crate) const STATS: usize = 10;

// A player in a match: his side, if he is on one, and how much he has of each figure by which a match is told.
#[derive(Clone, Copy, Debug)]
pub(crate) struct Appeared {
    pub player: PlayerId,
    pub side: Option<Side>,
    pub values: [i32; STATS],
}

// All who have a line in a match.
pub(crate) fn all_appeared<L: Ledger>(
    alloc: Global,
    seen: &Seen<L>,
    fixture: &Fixture,
    rows: &Match<'_>,
) -> Result<Vec<Appeared>, AllocError>
    requires { IsMatch seen.now.facts fixture.now.id rows.now.players.now rows.now.lines.now
        rows.now.bonuses.now }
    ensures { IfOk result (λ all. all.items
        ≡ map (appeared_of seen.now.facts fixture.now)
        (lines_of seen.now.facts.matches fixture.now.id)) }
{
    let mut all = Vec::with_capacity(alloc, rows.players.len())?;
    for (place, player) in rows.players.iter().enumerate() {
        let bonus = bonus_among(rows.bonuses, *player);
        all.push(one_appeared(seen, fixture, *player, &rows.lines[place], bonus))?;
    }
    Ok(all)
}

// A player with his line and his bonus.
fn one_appeared<L: Ledger>(
    seen: &Seen<L>,
    fixture: &Fixture,
    player: PlayerId,
    line: &Line,
    bonus: u8,
) -> Appeared
    requires line { IsLine line.now }
    requires bonus { bonus
        ≡ bonus_at seen.now.facts.players seen.now.facts.matches fixture.now.id (player, line.now) }
    ensures { result ≡ appeared_of seen.now.facts fixture.now (player, line.now) }
{
    Appeared {
        player,
        side: side_of(seen, fixture, player),
        values: [
            figure(line, 2),
            figure(line, 3),
            figure(line, 10),
            figure(line, 6),
            figure(line, 7),
            yellow_cards(line),
            figure(line, 9),
            figure(line, 5),
            i32::from(bonus),
            bps(position_of(seen, player), line),
        ],
    }
}

// A figure of a line, by the number of its field from 1.
fn figure(line: &Line, field: usize) -> i32
    requires from_1 { 1 ≤ field }
    requires to_28 { field ≤ 28 }
    ensures { result ≡ pos (figure line.now field) }
{
    i32::from(line.figures[field - 1])
}

// The yellow cards of a line: beside a red one none counts.
fn yellow_cards(line: &Line) -> i32
    ensures { result ≡ pos (counted_yellow line.now) }
{
    if line.figures[8] == 1 {
        0
    } else {
        i32::from(line.figures[7])
    }
}

// Where a player plays, who is there wherever he has a line.
pub(crate) fn position_of<L: Ledger>(seen: &Seen<L>, player: PlayerId) -> Position
    ensures { result ≡ position_in seen.now.facts.players player }
{
    match seen.player(player.get()) {
        Some(player) => player.position,
        None => Position::Keeper,
    }
}
