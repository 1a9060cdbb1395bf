// What the nodes are worth, of the facts and of what their inputs' cells hold.
ghost use Rattle.std.specs.Prelude.{◌≡◌, ◌≤◌, ◌+◌, ◌≤ℤ◌, ◌+ℤ◌, ◌||◌, nat_le, ℕ, pos, negsuc, IfOk, option_copied, Some};
ghost use Rattle.std.specs.Option.{unwrap_or};
ghost use Rattle.rule_book.specs.ById.{at_id};
ghost use Rattle.rule_book.specs.Figures.{IsLine};
ghost use Rattle.rule_book.specs.TeamScores.{IsModest};
ghost use Rattle.season_nodes.specs.BookFacts.{facts_of};
ghost use Rattle.season_nodes.specs.Held.{held_values};
ghost use Rattle.season_nodes.specs.Season.{AreModest, IsSeason, bonuses_by, bonuses_in, figures_by, figures_held, line_worth, no_figures, no_worth, took_part_by, with_bonus, with_fixture, with_worth, worth_in, worth_of};

use crate::rules::SeasonCells;
use fpl_base::{FixtureId, Gw, Memory, PlayerId, Position, Profile, ReadCount};
use rule_book::{Figures, Line};
use scoring::{BonusLevels, bps, line_points};
use season_nodes::{Bonuses, Books, LineWorth, Node, Value};
use std::alloc::Global;
use std::sync::ledger::Ledger;

// What a line is worth without bonus.
fn worth_of(profile: Profile, position: Position, line: &Line) -> LineWorth
    requires { IsLine line.now }
    ensures { result ≡ worth_of profile position line.now }
{
    LineWorth {
        points: line_points(profile, position, line) as i16,
        bps: bps(position, line) as i16,
        minutes: line.figures[0],
        carded: line.figures[7] == 1 || line.figures[8] == 1,
        goals: line.figures[1] as u8,
        conceded: line.figures[3] as u8,
    }
}

// What nothing is worth.
fn no_worth() -> LineWorth
    ensures { result ≡ no_worth }
{
    LineWorth {
        points: 0,
        bps: 0,
        minutes: 0,
        carded: false,
        goals: 0,
        conceded: 0,
    }
}

/// The worth of a line that a cell holds; nothing of a cell of another kind.
pub fn worth_in(value: Option<&Value>) -> LineWorth
    ensures { result ≡ worth_in (option_copied value.entry) }
{
    match value {
        Some(Value::Line(worth)) => *worth,
        _ => no_worth(),
    }
}

/// The figures of a player's gameweek that a cell holds; nothing of a cell of another kind.
pub fn figures_in(value: Option<&Value>) -> Figures
    ensures value { result ≡ figures_held (option_copied value.entry) }
    ensures modest { IsModest result }
{
    match value {
        Some(Value::PlayerGw(figures)) => figures.get(),
        _ => no_figures(),
    }
}

// The bonus of a player among those that a cell holds.
pub(crate) fn bonus_in(value: Option<&Value>, player: PlayerId) -> u8
    ensures { result ≡ unwrap_or (at_id (bonuses_in (option_copied value.entry)) player) 0 }
{
    match value {
        Some(Value::Bonus(rows)) => bonus_among(rows.as_slice(), player),
        _ => 0,
    }
}

/// A player's bonus among those who have one; 0 of who has none.
pub fn bonus_among(rows: &[(PlayerId, u8)], player: PlayerId) -> u8
    ensures { result ≡ unwrap_or (at_id rows.now player) 0 }
{
    for row in rows {
        if row.0 == player {
            return row.1;
        }
    }
    0
}

// Those who have a bonus among those who took part, each with it.
fn with_bonus(alloc: Global, table: &[(PlayerId, i32)]) -> Result<Bonuses, Memory>
    ensures { IfOk result (λ rows. rows ≡ with_bonus table.now) }
{
    let levels = BonusLevels::of(table);
    let mut rows = Bonuses::new(alloc);
    for row in table {
        let bonus = levels.bonus(row.1);
        if bonus >= 1 {
            rows.push(row.0, bonus)?;
        }
    }
    Ok(rows)
}

// The points of a line with the bonus.
fn points_with_bonus(worth: &LineWorth, bonus: u8) -> i32
    ensures value { result ≡ worth.now.points +ℤ pos bonus }
    ensures low { negsuc 32767 ≤ℤ result }
    ensures high { result ≤ℤ pos 33022 }
{
    i32::from(worth.points) + i32::from(bonus)
}

// Whether a line has a minute or a card.
fn has_played(worth: &LineWorth) -> bool
    ensures { result ≡ (nat_le 1 worth.now.minutes || worth.now.carded) }
{
    worth.minutes >= 1 || worth.carded
}

// The figures with those of one line more.
fn with_line(figures: &Figures, worth: &LineWorth, bonus: u8) -> Figures
    requires modest { AreModest 19 figures.now }
    ensures value { result ≡ with_worth figures.now worth.now bonus }
    ensures modest { (n : ℕ) → AreModest n figures.now → AreModest (n + 1) result }
{
    Figures {
        points: figures.points + points_with_bonus(worth, bonus),
        played: figures.played || has_played(worth),
        goals: figures.goals + u32::from(worth.goals),
        conceded: figures.conceded + u32::from(worth.conceded),
    }
}

// What a player's line in a fixture is worth.
pub(crate) fn line_worth<L: Ledger>(
    books: &Books,
    fixture: FixtureId,
    player: PlayerId,
    steps: &mut ReadCount<L>,
) -> LineWorth
    requires { IsSeason (facts_of books.now) }
    ensures value { result ≡ line_worth (facts_of books.now) fixture player }
    ensures cost { steps.new ≡ steps.old + 1 }
{
    let position = books.position(player);
    match books.matches.line(fixture, player, steps) {
        Some(line) => worth_of(books.profile, position, line),
        None => no_worth(),
    }
}

// Who took part in a fixture by what the cells hold of their lines, each with his number in the bonus points system.
fn took_part<L: Ledger>(
    books: &Books,
    alloc: Global,
    fixture: FixtureId,
    cells: &SeasonCells,
    steps: &mut ReadCount<L>,
) -> Result<Vec<(PlayerId, i32)>, Memory>
    ensures table { IfOk result (λ table.
        table.items ≡ took_part_by (facts_of books.now) (held_values cells.now) fixture) }
    ensures cost { steps.new ≤ steps.old + 64 }
{
    let players = books.matches.players_of(fixture);
    let mut table = Vec::with_capacity(alloc, players.len())?;
    for player in players {
        let worth = worth_in(cells.get(Node::Line(fixture, *player), steps));
        if worth.minutes >= 1 {
            table.push((*player, i32::from(worth.bps)))?;
        }
    }
    Ok(table)
}

// The bonus of a fixture by what the cells hold of its lines.
pub(crate) fn bonuses<L: Ledger>(
    books: &Books,
    alloc: Global,
    fixture: FixtureId,
    cells: &SeasonCells,
    steps: &mut ReadCount<L>,
) -> Result<Bonuses, Memory>
    ensures value { IfOk result
        (λ rows. rows ≡ bonuses_by (facts_of books.now) (held_values cells.now) fixture) }
    ensures cost { steps.new ≤ steps.old + 64 }
{
    if !books.matches.finished(fixture) {
        return Ok(Bonuses::new(alloc));
    }
    let table = took_part(books, alloc, fixture, cells, steps)?;
    with_bonus(alloc, &table)
}

// The figures with those of a player's line in a fixture, if he has one there.
fn with_fixture<L: Ledger>(
    books: &Books,
    player: PlayerId,
    fixture: FixtureId,
    figures: &Figures,
    cells: &SeasonCells,
    steps: &mut ReadCount<L>,
) -> Figures
    requires modest { AreModest 19 figures.now }
    ensures value { result ≡
        with_fixture (facts_of books.now) (held_values cells.now) player figures.now fixture }
    ensures modest { (n : ℕ) → AreModest n figures.now → AreModest (n + 1) result }
    ensures cost { steps.new ≤ steps.old + 2 }
{
    if !books.has_line(player, fixture) {
        return *figures;
    }
    let worth = worth_in(cells.get(Node::Line(fixture, player), steps));
    let won = bonus_in(cells.get(Node::Bonus(fixture), steps), player);
    with_line(figures, &worth, won)
}

// What a player did in a gameweek by what the cells hold of his lines in it and of their fixtures.
pub(crate) fn gameweek_figures<L: Ledger>(
    books: &Books,
    player: PlayerId,
    gameweek: Gw,
    cells: &SeasonCells,
    steps: &mut ReadCount<L>,
) -> Figures
    ensures value { result ≡
        figures_by (facts_of books.now) (held_values cells.now) player gameweek }
    ensures modest { IsModest result }
    ensures cost { steps.new ≤ steps.old + 40 }
{
    let mut figures = no_figures();
    for fixture in books.calendar.standing(gameweek) {
        figures = with_fixture(books, player, *fixture, &figures, cells, steps);
    }
    figures
}

// The figures of nothing.
pub(crate) fn no_figures() -> Figures
    ensures value { result ≡ no_figures }
    ensures modest { IsModest result }
{
    Figures {
        points: 0,
        played: false,
        goals: 0,
        conceded: 0,
    }
}
