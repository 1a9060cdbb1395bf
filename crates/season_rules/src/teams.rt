// What an entry's team scored in a gameweek, of what the cells hold of its players.
ghost use Rattle.std.specs.Prelude.{◌≡◌, ◌≤◌, ◌+◌, if◌then◌else◌, true, All};
ghost use Rattle.rule_book.specs.FigureRange.{IsWithin};
ghost use Rattle.rule_book.specs.ScoreOfTeam.{score_of};
ghost use Rattle.rule_book.specs.TeamScores.{IsModest};
ghost use Rattle.season_nodes.specs.BookFacts.{facts_of};
ghost use Rattle.season_nodes.specs.Held.{held_values};
ghost use Rattle.season_nodes.specs.Season.{ended, figures_held, figures_of_fifteen, is_live, is_there, no_figures, score_by};
ghost use Rattle.season_nodes.specs.declared.nodes.Node.{Node};

use crate::rules::SeasonCells;
use crate::worth::{figures_in, no_figures};
use fpl_base::{EntryId, Gw, PlayerId, ReadCount};
use rule_book::{Figures, Team, TeamScore};
use scoring::team_score;
use season_nodes::{Books, Node};
use std::sync::ledger::Ledger;

// What the cells hold of the players of a team in a gameweek, by slot.
fn team_figures<L: Ledger>(
    books: &Books,
    team: &Team,
    gameweek: Gw,
    cells: &SeasonCells,
    steps: &mut ReadCount<L>,
) -> [Figures; 15]
    ensures value { result
        ≡ figures_of_fifteen (facts_of books.now) (held_values cells.now) team.now gameweek }
    ensures modest { All IsModest result }
    ensures cost { steps.new ≤ steps.old + 15 }
{
    let first = team.picks[0].player;
    let mut figures = [player_figures(books, first, gameweek, cells, steps); 15];
    for place in 1..15usize {
        let player = team.picks[place].player;
        figures[place] = player_figures(books, player, gameweek, cells, steps);
    }
    figures
}

// What a cell holds of a player in a gameweek; nothing of one who is not there.
fn player_figures<L: Ledger>(
    books: &Books,
    player: PlayerId,
    gameweek: Gw,
    cells: &SeasonCells,
    steps: &mut ReadCount<L>,
) -> Figures
    ensures value { result
        ≡ (if is_there (facts_of books.now) player
        then figures_held (held_values cells.now (Node.PlayerGw player gameweek)) else no_figures) }
    ensures modest { IsModest result }
    ensures cost { steps.new ≤ steps.old + 1 }
{
    if !books.is_there(player) {
        return no_figures();
    }
    figures_in(cells.get(Node::PlayerGw(player, gameweek), steps))
}

// The score of a team in a gameweek, where its transfers cost so much.
fn score<L: Ledger>(
    books: &Books,
    team: &Team,
    cost: u32,
    gameweek: Gw,
    cells: &SeasonCells,
    steps: &mut ReadCount<L>,
) -> TeamScore
    requires { cost ≤ 4000 }
    ensures value { result
        ≡ score_of team.now
        (figures_of_fifteen (facts_of books.now) (held_values cells.now) team.now gameweek)
        (ended (facts_of books.now) gameweek) cost }
    ensures near { IsWithin 18000000 result.net }
    ensures cost { steps.new ≤ steps.old + 15 }
{
    let figures = team_figures(books, team, gameweek, cells, steps);
    team_score(team, &figures, books.has_ended(gameweek), cost)
}

// What an entry's team scored in a gameweek by what the cells hold of its players.
pub(crate) fn team_gameweek<L: Ledger>(
    books: &Books,
    entry: EntryId,
    gameweek: Gw,
    cells: &SeasonCells,
    steps: &mut ReadCount<L>,
) -> TeamScore
    requires { is_live (facts_of books.now) (Node.TeamGw entry gameweek) ≡ true }
    ensures value { result ≡ score_by (facts_of books.now) (held_values cells.now) entry gameweek }
    ensures near { IsWithin 18000000 result.net }
    ensures cost { steps.new ≤ steps.old + 17 }
{
    let cost = books.managers.cost(entry, gameweek, steps);
    let Some(team) = books.team_at(entry, gameweek, steps) else {
        unreachable!()
    };
    score(books, &team, cost, gameweek, cells, steps)
}
