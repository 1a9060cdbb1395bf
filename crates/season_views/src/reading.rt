// What the cells hold, read by node.
ghost use Rattle.std.specs.Prelude.{◌≡◌, ◌+◌, true, false, [], if◌then◌else◌, IfSome, pos, Some, None};
ghost use Rattle.rule_book.specs.FigureRange.{IsWithin};
ghost use Rattle.rule_book.specs.HeadToHead.{head_score};
ghost use Rattle.rule_book.specs.TeamScores.{IsModest};
ghost use Rattle.season_graph.specs.Followed.{AreEvaluated};
ghost use Rattle.season_graph.specs.Told.{bonuses_told, gameweek_figures, gameweek_score, head_told, tie_told, total_since};
ghost use Rattle.season_nodes.specs.Season.{SeasonFacts, is_live, line_worth, no_figures, no_worth};
ghost use Rattle.season_nodes.specs.declared.nodes.Node.{Node};

use crate::seen::SeenCells;
use fpl_base::{CupId, EntryId, FixtureId, Gw, LeagueId, PlayerId, ReadCount};
use rule_book::{Figures, HeadScore, TeamScore};
use season_graph::{LineWorth, Node, Value};
use season_rules::{figures_in, winner_in, worth_in};
use std::sync::ledger::Ledger;

/// What a player's line in a fixture is worth without bonus, as its cell holds it; nothing where he has no line there. It
/// is one counted read, as each of these.
pub fn line_held<L: Ledger>(
    cells: &SeenCells<L>,
    fixture: FixtureId,
    player: PlayerId,
    steps: &mut ReadCount<L>,
) -> LineWorth
    ensures value { (b : SeasonFacts) → AreEvaluated b cells.now
        → is_live b (Node.Line fixture player) ≡ true
        → result ≡ line_worth b fixture player }
    ensures none { (b : SeasonFacts) → AreEvaluated b cells.now
        → is_live b (Node.Line fixture player) ≡ false
        → result ≡ no_worth }
    ensures cost { steps.new ≡ steps.old + 1 }
{
    worth_in(cells.get(Node::Line(fixture, player), steps))
}

/// Who took part in a fixture, each with his bonus; nobody before it is finished, or where nobody has a line.
pub fn bonuses_held<'a, L: Ledger>(
    cells: &'a SeenCells<L>,
    fixture: FixtureId,
    steps: &mut ReadCount<L>,
) -> &'a [(PlayerId, u8)]
    ensures value { (b : SeasonFacts) → AreEvaluated b cells.now
        → is_live b (Node.Bonus fixture) ≡ true
        → result.now ≡ bonuses_told b fixture }
    ensures none { (b : SeasonFacts) → AreEvaluated b cells.now
        → is_live b (Node.Bonus fixture) ≡ false
        → result.now ≡ [] }
    ensures cost { steps.new ≡ steps.old + 1 }
{
    match cells.get(Node::Bonus(fixture), steps) {
        Some(Value::Bonus(rows)) => rows.as_slice(),
        _ => &[],
    }
}

/// What a player did in a gameweek; nothing where he is not there, and where the gameweek is not locked.
pub fn gameweek_held<L: Ledger>(
    cells: &SeenCells<L>,
    player: PlayerId,
    gameweek: Gw,
    steps: &mut ReadCount<L>,
) -> Figures
    ensures value { (b : SeasonFacts) → AreEvaluated b cells.now
        → is_live b (Node.PlayerGw player gameweek) ≡ true
        → result ≡ gameweek_figures b player gameweek }
    ensures none { (b : SeasonFacts) → AreEvaluated b cells.now
        → is_live b (Node.PlayerGw player gameweek) ≡ false
        → result ≡ no_figures }
    ensures modest { IsModest result }
    ensures cost { steps.new ≡ steps.old + 1 }
{
    figures_in(cells.get(Node::PlayerGw(player, gameweek), steps))
}

/// What an entry's team scored in a gameweek; `None` before its first one, and where the gameweek is not locked.
pub fn score_held<L: Ledger>(
    cells: &SeenCells<L>,
    entry: EntryId,
    gameweek: Gw,
    steps: &mut ReadCount<L>,
) -> Option<TeamScore>
    ensures value { (b : SeasonFacts) → AreEvaluated b cells.now
        → result ≡ (if is_live b (Node.TeamGw entry gameweek)
        then Some (gameweek_score b entry gameweek) else None) }
    ensures near { IfSome result (λ score. IsWithin 18000000 score.net) }
    ensures cost { steps.new ≡ steps.old + 1 }
{
    match cells.get(Node::TeamGw(entry, gameweek), steps) {
        Some(Value::TeamGw(score)) => Some(*score.get()),
        _ => None,
    }
}

/// The points after deductions of an entry over the locked gameweeks from one on, or from its first; 0 where it has no total
/// from there.
pub fn total_held<L: Ledger>(
    cells: &SeenCells<L>,
    entry: EntryId,
    start: Gw,
    steps: &mut ReadCount<L>,
) -> i32
    ensures value { (b : SeasonFacts) → AreEvaluated b cells.now
        → result ≡ (if is_live b (Node.Total entry start) then total_since b entry start
        else pos 0) }
    ensures cost { steps.new ≡ steps.old + 1 }
{
    match cells.get(Node::Total(entry, start), steps) {
        Some(Value::Total(points)) => *points,
        _ => 0,
    }
}

/// What an entry has of its matches in a head-to-head league, over the locked gameweeks from its start on; nothing where
/// it is not in the order of the league, or where there is no such league.
#[tactic(auto, using(season_graph::proofs::ToldFacts::head_always))]
pub fn head_held<L: Ledger>(
    cells: &SeenCells<L>,
    league: LeagueId,
    entry: EntryId,
    steps: &mut ReadCount<L>,
) -> HeadScore
    ensures value { (b : SeasonFacts) → AreEvaluated b cells.now
        → result ≡ head_told b league entry }
    ensures cost { steps.new ≡ steps.old + 1 }
{
    match cells.get(Node::HeadRow(league, entry), steps) {
        Some(Value::HeadRow(score)) => *score,
        _ => no_matches(),
    }
}

/// The number of the entry that goes on from a tie of a cup, after so many rounds; 0 where there is no such tie, and where
/// its gameweek is not locked.
pub fn tie_held<L: Ledger>(
    cells: &SeenCells<L>,
    cup: CupId,
    round: u8,
    place: u16,
    steps: &mut ReadCount<L>,
) -> u32
    ensures value { (b : SeasonFacts) → AreEvaluated b cells.now
        → result ≡ (if is_live b (Node.Tie cup round place) then tie_told b cup round place
        else 0) }
    ensures cost { steps.new ≡ steps.old + 1 }
{
    winner_in(cells.get(Node::Tie(cup, round, place), steps))
}

// What an entry has of no matches.
fn no_matches() -> HeadScore
    ensures { result ≡ head_score [] }
{
    HeadScore {
        points: 0,
        won: 0,
        drawn: 0,
        lost: 0,
        scored: 0,
    }
}
