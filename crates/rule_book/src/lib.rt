//! The rules of the game, as definitions over numbers and lists: what a reader has to believe. The definitions stand
//! in `specs/`, one topic a file. The code has the plain types of which they speak, and ranks.
#![tactic(auto)]

mod cup;
mod laws;
mod league;
mod line;
mod pairing;
mod player;
mod ranking;
mod season;
mod tables;
mod team;
mod team_score;
mod transfers;

pub use cup::{Bracket, Coins, Side, Slots};
pub use laws::{
    figures_are_in_range, later_events_agree, open_deeds_agree, scores_agree, tables_are_the_one,
    team_is_the_one, told_values, totals_and_rows_agree, up_to_tells_all, up_to_tells_the_first,
    winners_agree,
};
pub use league::LeagueKind;
pub use line::{Appearance, Line};
pub use pairing::Opponent;
pub use player::Player;
pub use ranking::ranks;
pub use season::Fixture;
pub use tables::{HeadRanked, HeadScore, Ranked};
pub use team::{Pick, Team};
pub use team_score::{Armband, Eleven, Figures, TeamScore};
pub use transfers::{Sale, Swap};
