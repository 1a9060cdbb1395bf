// Why a store was not opened, for a person who is told that it failed.
use sqlite::Error;
use std::alloc::Global;
use std::cell::Cell;

/// Why the last opening of a store failed. Nothing where it went well, or none was tried.
#[derive(Drop)]
pub struct Cause {
    last: Cell<Option<Error>>,
}

impl Cause {
    /// Before any opening.
    pub fn new() -> Cause {
        Cause {
            last: Cell::new(None),
        }
    }

    // Keeps why an opening failed, or that it did not.
    pub(crate) fn keep(&self, why: Option<Error>) {
        self.last.set(why);
    }

    /// What SQLite says of it, where there is memory for the words.
    pub fn words(&self, alloc: Global) -> Option<String> {
        match self.last.get() {
            Some(error) => match format!(in alloc; "{error}") {
                Ok(words) => Some(words),
                Err(_) => None,
            },
            None => None,
        }
    }
}
