//! What has a value in a season, and what the books say of it: each player's line in a fixture, the bonus of each
//! fixture, what each player did in each locked gameweek, what each entry's team scored there, and what each entry has
//! over them from the first one on, and from the start of each classic league that it is in; of each head-to-head
//! league that was drawn the Average, where it plays, and the matches in each locked gameweek from the start on, and
//! what each member has of them; and of each cup who goes on from each tie of a locked gameweek. Which of these nodes
//! are live, what each is computed from and how, and who holds a player in a locked gameweek.
//!
//! A further kind of node adds a case to each of these, and to nothing else: `Node` and `Value` in `nodes.rs`; `is_live`,
//! `inputs_of`, `own_value`, `level_of`, `weight_of` and what cells of one kind hold in `specs/Season.antt`, with
//! `is_live` in `books.rt` and the functions of the rules in `season_rules`; the functions of a node in
//! `specs/NodeOrder.antt`; `dependents_of` in `specs/Dependents.antt`; the laws in `specs/SeasonLaws.antt`;
//! `season_dependents` in the proofs; and, in `season_graph`, `told` in `specs/Told.antt`, `IsSame` in
//! `specs/Changes.antt`, `kept_untouched` and `own_told` in the proofs, and a line for each change that leaves the kind as
//! it was.
#![tactic(auto)]

mod books;
mod index;
mod laws;
mod nodes;
mod rounds;
mod ties;

pub use books::Books;
pub use index::{Entries, Index};
pub use laws::{cups_are_brackets, orders_are_of_members, rows_are_told, ties_are_told};
pub use nodes::{
    AveragePoints, Bonuses, GameweekFigures, GameweekScore, LineWorth, MatchScores, Node, Value,
    is_same,
};
pub use rounds::met;
