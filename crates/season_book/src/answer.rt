use crate::{Made, Shown};
use fpl_base::{RecordKey, Rule};

/// What the host answers.
#[derive(Drop)]
pub enum Answer {
    /// The command of this number was done, now or before.
    Done { number: u64, made: Made },
    /// What was to be shown.
    Shown(Shown),
    /// A rule refuses the request, which changed nothing.
    Rule(Rule),
    /// An id is not there.
    Unknown,
    /// The keeper failed. The command was done once or not at all, and its repeat tells.
    Keeper,
    /// The keeper holds a record that cannot be, under this key.
    Damaged(RecordKey),
    /// There was no memory. The command was done once or not at all, and its repeat tells.
    Memory,
}
