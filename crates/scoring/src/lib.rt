//! What a player's line in a match is worth, and what a team scores in a gameweek: points, bonus points, the final eleven and
//! the armband (docs/RULES.md, "The final eleven", "The armband" and "A team's score"). No call takes memory.
#![tactic(auto)]

mod bands;
mod bonus_points;
mod counts;
mod eleven;
mod figures;
mod laws;
mod levels;
mod points;
mod score;
mod slots;
mod substitutions;

pub use bands::armband;
pub use bonus_points::bps;
pub use eleven::{elevens_are_legal, enough_for_elevens, final_eleven, has_one_eleven, one_eleven};
pub use laws::{final_eleven_is_the_one, score_is_the_one, scores_are_in_range};
pub use levels::BonusLevels;
pub use points::line_points;
pub use rule_book::{Armband, Eleven, Figures, TeamScore};
pub use score::team_score;
