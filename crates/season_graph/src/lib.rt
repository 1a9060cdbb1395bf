//! The values of a season as cells, which follow each change of the books: what each player's line in a fixture is worth,
//! the bonus of each fixture, what each player did in each locked gameweek, what each entry's team scored there, and what
//! each entry has over them; the Average, the matches and the rows of each head-to-head league that was drawn; and who goes
//! on from each tie of a cup in a locked gameweek. For each change there is a call that brings up to date exactly the nodes that it touches.
#![tactic(auto)]

mod changes;
mod endings;
mod evaluation;
mod holding;
mod indexing;
mod laws;
mod parts;
mod refreshing;

pub use changes::{
    fact_changed, fixture_moved, gameweeks_locked, league_changed, mark_changed, player_added,
    sheet_changed,
};
pub use evaluation::{evaluate_all, settle_season};
pub use laws::{
    books_alike, calendar_changes, cups_change, index_stays, leagues_change, lines_are_told,
    managers_change, matches_change, players_change, replay_is_told, same_is_alike,
};
pub use season_nodes::{
    Bonuses, Books, GameweekFigures, GameweekScore, Index, LineWorth, Node, Value, is_same,
};
pub use season_rules::{SeasonCells, SeasonRules};
