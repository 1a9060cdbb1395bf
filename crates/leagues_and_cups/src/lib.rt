//! Leagues and cups: who is in them, the tables of classic and of head-to-head leagues, who meets whom and what a match gives,
//! the draws of cups, their rounds, and who goes on from a tie (docs/RULES.md, "Leagues" and "Cups").
#![tactic(auto)]

mod classic_table;
mod cup_draw;
mod cup_laws;
mod cups;
mod drawn;
mod head_draw;
mod head_laws;
mod head_table;
mod league;
mod leagues;
mod matches;
mod memberships;
mod opponents;
mod shape;
mod ties;

pub use classic_table::rank_classic;
pub use cup_draw::check_draw;
pub use cup_laws::{
    cups_have_shape, entrants_win, rounds_follow, unbroken_cups_have_shape, winners_meet,
};
pub use cups::Cups;
pub use head_draw::check_order;
pub use head_laws::{
    each_meets_one, mean_is_the_one, meet_once, opponent_is_the_one, points_by_results,
};
pub use head_table::rank_head_to_head;
pub use league::{Ids, League};
pub use leagues::Leagues;
pub use matches::{average, head_score, result};
pub use opponents::opponent;
pub use rule_book::{
    Bracket, Coins, HeadRanked, HeadScore, LeagueKind, Opponent, Ranked, Side, Slots,
};
pub use shape::{coin, rounds};
pub use ties::tie;
