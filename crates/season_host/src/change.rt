// What an answer changes.

use season_cells::Plan;

/// What an answer changed that cells hang on.
#[derive(Drop)]
pub enum Change {
    /// Nothing: all is as it was.
    Nothing,
    /// A season began, where none ran.
    Season,
    /// The season that runs went on, as its plan says.
    Plan(Plan),
}
