// What a command changes that cells hang on.
ghost use Rattle.std.specs.Prelude.{◌≡◌, ◌≤◌, ◌↔◌, ◌+◌, length, IfOk, IfSome, IsTrue, is_some, true};
ghost use Rattle.rule_book.specs.Calendar.{stands_in};
ghost use Rattle.rule_book.specs.MatchFacts.{is_finished, line_of};
ghost use Rattle.season_book.specs.Commands.{are_there, has_fixture, part_of};
ghost use Rattle.season_book.specs.declared.part.Part.TheVariants as part;
ghost use Rattle.season_cells.specs.declared.plan.Plan.TheVariants as planning;
ghost use Rattle.season_cells.specs.Plans.{IsLeagued, IsLined, IsMarked, IsPlaced, IsPlanOf, lines_named};

use crate::sheets::sheet_plan;
use fpl_base::{FixtureId, Gw, LeagueId, Memory, PlayerId, ReadCount};
use leagues_and_cups::Leagues;
use rule_book::Line;
use season_book::Command;
use season_facts::Season;
use std::alloc::Global;
use std::sync::ledger::Ledger;

/// What a command changes that cells hang on, told before it is done. What a command leaves as it was is no change.
#[derive(Drop)]
pub enum Plan {
    /// Nothing.
    Nothing,
    /// A player comes.
    Player(PlayerId),
    /// A fixture moves from where it stood, or comes from nowhere.
    Place {
        fixture: FixtureId,
        from: Option<Gw>,
        to: Option<Gw>,
    },
    /// A player's line in a fixture comes, goes, or is another.
    Line {
        fixture: FixtureId,
        player: PlayerId,
    },
    /// The mark of a fixture.
    Mark(FixtureId),
    /// The lines of these players in a fixture, and its mark if `marked` says so.
    Sheet {
        fixture: FixtureId,
        players: Vec<PlayerId>,
        marked: bool,
    },
    /// A league: it comes, is joined, or is drawn.
    League(LeagueId),
}

/// What a command on a season and its leagues changes. It takes memory for a sheet alone. Each line of the fixture that it
/// looks at is a counted read.
pub fn planned<L: Ledger>(
    alloc: Global,
    season: &Season,
    leagues: &Leagues,
    command: &Command,
    steps: &mut ReadCount<L>,
) -> Result<Plan, Memory>
    requires there { part_of command.now ≡ part.Facts → are_there season.now command.now ≡ true }
    ensures plan { IfOk result (λ plan. IsPlanOf season.now leagues.now command.now plan) }
    ensures counted { steps.new ≤ steps.old + lines_named season.now command.now }
{
    match command {
        Command::Player { id, .. } => Ok(Plan::Player(*id)),
        Command::Fixture { id, gameweek, .. } => Ok(placed(*id, &None, gameweek)),
        Command::Move {
            fixture,
            gameweek,
            ..
        } => Ok(moved(season, *fixture, gameweek)),
        Command::Sheet {
            fixture,
            lines,
            finished,
        } => match named(season, *fixture) {
            Some(fixture) => sheet_plan(alloc, season, fixture, lines.as_slice(), *finished, steps),
            None => unreachable!(),
        },
        Command::Line {
            fixture,
            player,
            line,
        } => Ok(lined(season, *fixture, *player, &Some(*line), steps)),
        Command::Drop { fixture, player } => Ok(lined(season, *fixture, *player, &None, steps)),
        Command::Finished { fixture, finished } => Ok(marked(season, *fixture, *finished)),
        Command::League { .. } => Ok(founded(leagues)),
        Command::Join { league, .. } => Ok(leagued(leagues, *league)),
        Command::Draw { league, .. } => Ok(leagued(leagues, *league)),
        Command::Season { .. }
        | Command::Deadline { .. }
        | Command::Price { .. }
        | Command::AmendPlayer { .. }
        | Command::Club { .. }
        | Command::Gone { .. }
        | Command::AmendFixture { .. }
        | Command::Key { .. }
        | Command::Rekey { .. }
        | Command::Squad { .. }
        | Command::Transfers { .. }
        | Command::Lineup { .. }
        | Command::Chip { .. }
        | Command::CancelChip
        | Command::Cup { .. } => Ok(Plan::Nothing),
    }
}

// The id of the fixture of a number, if it is there.
pub(crate) fn named(season: &Season, number: u32) -> Option<FixtureId>
    ensures there { is_some result ≡ has_fixture season.now number }
    ensures same { IfSome result (λ fixture. fixture ≡ number) }
{
    match season.fixture(number) {
        Some(fixture) => Some(fixture.id),
        None => None,
    }
}

// A league more.
fn founded(leagues: &Leagues) -> Plan
    ensures { result ≡ planning.League (length leagues.now + 1) }
{
    match LeagueId::new(leagues.count() + 1) {
        Some(league) => Plan::League(league),
        None => unreachable!(),
    }
}

// The league of a number is another, if it is there.
fn leagued(leagues: &Leagues, number: u32) -> Plan
    ensures { IsLeagued leagues.now number result }
{
    let Some(league) = LeagueId::new(number) else {
        return Plan::Nothing;
    };
    match leagues.get(league) {
        Some(there) => {
            // That its members ascend, for the prover.
            let _members = there.members();
            Plan::League(league)
        }
        None => Plan::Nothing,
    }
}

// A fixture stands in another place than before, if it does.
fn placed(fixture: FixtureId, from: &Option<Gw>, to: &Option<Gw>) -> Plan
    ensures { IsPlaced fixture from.now to.now result }
{
    if from == to {
        return Plan::Nothing;
    }
    Plan::Place {
        fixture,
        from: *from,
        to: *to,
    }
}

// The same of the fixture of a number, which is there.
fn moved(season: &Season, number: u32, to: &Option<Gw>) -> Plan
    requires { has_fixture season.now number ≡ true }
    ensures { IsPlaced number (stands_in season.now.calendar number) to.now result }
{
    match named(season, number) {
        Some(fixture) => placed(fixture, &season.calendar().stands_in(fixture), to),
        None => unreachable!(),
    }
}

// A player's line in the fixture of a number, which is there, is another, if it is.
fn lined<L: Ledger>(
    season: &Season,
    number: u32,
    player: PlayerId,
    line: &Option<Line>,
    steps: &mut ReadCount<L>,
) -> Plan
    requires { has_fixture season.now number ≡ true }
    ensures lined { IsLined number player
        (line_of season.now.matches number player) line.now result }
    ensures counted { steps.new ≡ steps.old + 1 }
{
    match named(season, number) {
        Some(fixture) => {
            if has_line(season, fixture, player, line, steps) {
                Plan::Nothing
            } else {
                Plan::Line { fixture, player }
            }
        }
        None => unreachable!(),
    }
}

// Whether a player's line in a fixture is this one, or none where this is none.
pub(crate) fn has_line<L: Ledger>(
    season: &Season,
    fixture: FixtureId,
    player: PlayerId,
    line: &Option<Line>,
    steps: &mut ReadCount<L>,
) -> bool
    ensures same { IsTrue result ↔ (line_of season.now.matches fixture player ≡ line.now) }
    ensures counted { steps.new ≡ steps.old + 1 }
{
    match (season.line(fixture, player, steps), line) {
        (Some(one), Some(other)) => one == other,
        (None, None) => true,
        _ => false,
    }
}

// The mark of the fixture of a number, which is there, is another, if it is.
fn marked(season: &Season, number: u32, finished: bool) -> Plan
    requires { has_fixture season.now number ≡ true }
    ensures { IsMarked number (is_finished season.now.matches number) finished result }
{
    match named(season, number) {
        Some(fixture) => {
            if season.is_finished(fixture) == finished {
                Plan::Nothing
            } else {
                Plan::Mark(fixture)
            }
        }
        None => unreachable!(),
    }
}
