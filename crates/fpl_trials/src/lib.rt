//! Proved tests of what no file below `tests/` shows: a keeper that fails on the way, before it stores or behind that, at the
//! host's handler; doors and shelves over memory that fail by choice. They stand apart, since a crate with tests is proved twice.
#![tactic(auto)]

#[cfg(test)]
mod doors;
#[cfg(test)]
mod keepers;
#[cfg(test)]
mod shelves;
