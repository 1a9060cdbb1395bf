ghost use Rattle.rescore_graph.specs.Graph.{replay};
ghost use Rattle.season_graph.specs.BookChanges.{CupIsDrawn, LineIsPut, LineIsDropped, MarkIsSet, SheetIsPut, FixtureMoves, FixtureComes, MomentPasses, PlayerComes, PositionChanges, DeadlineMoves, OpponentsChange, PriceChanges, ClubChanges, GoneChanges, ManagersChange, LeagueIsMade, LeagueIsJoined, LeagueIsDrawn, IndexStays};
ghost use Rattle.season_nodes.specs.BookFacts.{facts_of};
ghost use Rattle.season_graph.specs.Changes.{SameIsAlike};
ghost use Rattle.season_graph.specs.Followed.{AlikeFollowed, AlikeMarked};
ghost use Rattle.season_graph.specs.Lines.{LinesAreTold};
ghost use Rattle.season_nodes.specs.IndexFacts.{IsIndex, holders_in};
ghost use Rattle.season_nodes.specs.Season.{IsSeason, season_graph};
ghost use Rattle.season_graph.specs.Told.{IsTold};

use match_facts::facts_are_maps;
use rescore_graph::replay_is_one;
use season_nodes::Books;
use season_rules::{SeasonCells, SeasonRules};

/// A law: the replay value of each live node is what the rule book tells straight from the facts. It is a line's worth,
/// the bonus of a fixture, what a player did in a gameweek, what an entry's team scored there, or what an entry has over
/// the locked gameweeks from one on; the points of the Average of a head-to-head league, what the two of a match scored,
/// what a member has of its matches, or who wins a tie of a cup.
pub fn replay_is_told(rules: &SeasonRules)
    requires season { IsSeason (facts_of rules.now.books) }
    requires index { IsIndex (facts_of rules.now.books) (holders_in rules.now.index.now) }
    ensures { IsTold (facts_of rules.now.books) (replay (season_graph (facts_of rules.now.books))) }
{
    // The law on which it stands, for the prover.
    replay_is_one(rules);
}

/// A law: in a season each line of a fixture is worth what is told of its node, and has the bonus that is told of the
/// fixture's.
pub fn lines_are_told()
    ensures { LinesAreTold }
{}

/// A law: what the calls of the matches' facts leave is a season, which differs in the line, the sheet or the mark that
/// they name.
pub fn matches_change()
    ensures put { LineIsPut }
    ensures dropped { LineIsDropped }
    ensures marked { MarkIsSet }
    ensures sheet { SheetIsPut }
{
    // The law on which they stand, for the prover.
    facts_are_maps();
}

/// A law: what the calls of the calendar leave is a season, which differs in where the fixture that they name stands, in
/// how many gameweeks are locked, or, where a deadline moves, in nothing that a node hangs on.
pub fn calendar_changes()
    ensures moved { FixtureMoves }
    ensures added { FixtureComes }
    ensures passed { MomentPasses }
    ensures deadline { DeadlineMoves }
    ensures opponents { OpponentsChange }
{}

/// A law: what the calls of the players leave is a season, which differs in a new player, or in nothing that a node hangs
/// on.
pub fn players_change()
    ensures added { PlayerComes }
    ensures price { PriceChanges }
    ensures club { ClubChanges }
    ensures gone { GoneChanges }
    ensures position { PositionChanges }
{}

/// A law: a book of managers in which all locked gameweeks are as they were leaves a season, which differs in nothing that
/// a node hangs on.
pub fn managers_change()
    ensures { ManagersChange }
{}

/// A law: what the calls of the leagues leave is a season, which differs in the league that they name. A league is made
/// without an order, and keeps the one in which it was drawn.
pub fn leagues_change()
    ensures made { LeagueIsMade }
    ensures joined { LeagueIsJoined }
    ensures drawn { LeagueIsDrawn }
{}

/// A law: a cup that is drawn before its start leaves a season, which differs in nothing that a node hangs on. Its ties come
/// with the locks of their gameweeks.
pub fn cups_change()
    ensures { CupIsDrawn }
{}

/// A law: an index stays right where no gameweek is locked and the entries are as they were in those that are.
pub fn index_stays()
    ensures { IndexStays }
{}

/// A law: a line, a mark or a place that a change names, and leaves as it was, is no difference that a node hangs on.
pub fn same_is_alike()
    ensures { SameIsAlike }
{}

/// A law: cells follow books that differ in nothing that a node hangs on, as they are, and nothing is touched.
pub fn books_alike(cells: &SeasonCells, books: &Books)
    ensures sound { AlikeFollowed books.now cells.now }
    ensures exact { AlikeMarked books.now cells.now }
{}
