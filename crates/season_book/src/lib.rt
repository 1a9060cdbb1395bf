//! The season as its definitions have it: what can be asked, what is answered and shown, the book, the verdict on each
//! request, that no command acts twice, and that no reply to one manager hangs on what another manager did in an open gameweek
//! (docs/RULES.md, "What a manager sees"). No call of this crate changes a season.
#![tactic(auto)]

mod answer;
mod clubs;
mod command;
mod copies;
mod isolation;
mod laws;
mod lists;
mod made;
mod part;
mod request;
mod same;
mod shown;

pub use answer::Answer;
pub use clubs::SharedClubs;
pub use command::Command;
pub use isolation::{
    agreeing_is_an_equivalence, answers_are_isolated, commands_are_isolated, others_are_unseen,
    replies_are_isolated, views_are_isolated,
};
pub use laws::commands_act_once;
pub use lists::{Clubs, Lines, Moments, Order, Swaps};
pub use made::Made;
pub use part::Part;
pub use request::{Request, View, Window};
pub use rule_book::{Coins, Slots};
pub use shown::{
    Page, Shown, ShownClassic, ShownCup, ShownEntryGameweek, ShownFixture, ShownHead,
    ShownHeadRanked, ShownLine, ShownLines, ShownMe, ShownPick, ShownRanked, ShownSeason,
};
