// The terms of the season: its deadlines, its halves, and how far it is locked.
ghost use Rattle.std.specs.Prelude.{◌≡◌, IfOk, not};
ghost use Rattle.fpl_base.specs.Keeping.{map_of};
ghost use Rattle.rule_book.specs.Calendar.{is_locked_place};
ghost use Rattle.stored_records.specs.SeasonRules.{calendar_told, misses_place, terms_told};
ghost use Rattle.stored_records.specs.Stored.{has_gameweek};

use crate::stored::Stored;
use fpl_base::{Gw, Memory};
use season_book::Moments;
use season_records::{Item, Slot};
use std::alloc::Global;

/// The terms of the season.
#[derive(Drop)]
pub struct Terms {
    /// The deadline of each gameweek, in seconds since 1970.
    pub deadlines: Moments,
    /// The last gameweek of the first half.
    pub split: u8,
    /// How many gameweeks are locked, from the first on.
    pub locked: u8,
}

/// What the season's record tells; no gameweeks where there is none, or where it is not spelled as it has to be.
pub fn terms_of(alloc: Global, stored: &Stored) -> Result<Terms, Memory>
    ensures { IfOk result (λ terms. terms ≡ terms_told (map_of stored.now)) }
{
    match stored.item(Slot::Season) {
        Some(
            Item::Season {
                split,
                locked,
                deadlines,
                ..
            },
        ) => Ok(Terms {
            deadlines: deadlines.copy()?,
            split: *split,
            locked: *locked,
        }),
        _ => Ok(Terms {
            deadlines: Moments::new(alloc),
            split: 0,
            locked: 0,
        }),
    }
}

/// Whether the season has this gameweek.
pub fn has_gameweek(stored: &Stored, terms: &Terms, g: Gw) -> bool
    requires { terms.now ≡ terms_told (map_of stored.now) }
    ensures { result ≡ has_gameweek (map_of stored.now) g }
{
    g.get() as usize <= terms.deadlines.as_slice().len()
}

/// Whether a gameweek, which may be none, is one that the season does not have.
pub(crate) fn misses_place(stored: &Stored, terms: &Terms, place: Option<Gw>) -> bool
    requires { terms.now ≡ terms_told (map_of stored.now) }
    ensures { result ≡ misses_place (map_of stored.now) place }
{
    match place {
        Some(g) => !has_gameweek(stored, terms, g),
        None => false,
    }
}

/// Whether a gameweek, which may be none, is locked.
pub(crate) fn is_locked_place(stored: &Stored, terms: &Terms, place: Option<Gw>) -> bool
    requires { terms.now ≡ terms_told (map_of stored.now) }
    ensures { result ≡ is_locked_place (calendar_told (map_of stored.now)) place }
{
    match place {
        Some(g) => g.get() <= terms.locked,
        None => false,
    }
}
