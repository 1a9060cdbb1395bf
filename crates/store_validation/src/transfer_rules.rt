// The rules on a transfer of an entry in a gameweek.
ghost use Rattle.std.specs.Prelude.{◌≡◌};
ghost use Rattle.fpl_base.specs.Keeping.{map_of};
ghost use Rattle.stored_records.specs.SeasonRules.{terms_told};
ghost use Rattle.store_validation.specs.TransferRules.{IsKnown, is_next_number, is_priced_sale, names_players, is_lawful_sale, term_told};

use fpl_base::{EntryId, Gw};
use player_market::is_price;
use rule_book::Sale;
use season_records::Slot;
use squad_rules::transfer_limit;
use stored_records::{Stored, Terms, chip_in, first_of, is_first, is_in_time, sale_of, team_of};

/// What an entry's gameweek says of its transfers: whether it may have some, and at most how many.
#[derive(Clone, Copy)]
pub(crate) struct Term {
    pub(crate) entry: u32,
    pub(crate) gameweek: u8,
    pub(crate) open_to_transfers: bool,
    pub(crate) most: u32,
}

/// What an entry's gameweek says of its transfers.
pub(crate) fn term_of(stored: &Stored, terms: &Terms, entry: EntryId, gameweek: Gw) -> Term
    requires { terms.now ≡ terms_told (map_of stored.now) }
    ensures { result ≡ term_told (map_of stored.now) entry gameweek }
{
    let first = first_of(stored, entry.get());
    let team = team_of(stored, entry, gameweek.get());
    Term {
        entry: entry.get(),
        gameweek: gameweek.get(),
        open_to_transfers: is_in_time(terms, first, gameweek) && team.is_some(),
        most: u32::from(transfer_limit(is_first(first, gameweek), chip_in(&team))),
    }
}

/// The same, as it is known of this gameweek already or else is known from now on. Transfers stand by gameweek, so one is
/// known at a time.
pub(crate) fn known_term(
    stored: &Stored,
    terms: &Terms,
    known: &mut Option<Term>,
    entry: EntryId,
    gameweek: Gw,
) -> Term
    requires terms { terms.now ≡ terms_told (map_of stored.now) }
    requires known { IsKnown (map_of stored.now) known.old }
    ensures term { result ≡ term_told (map_of stored.now) entry gameweek }
    ensures known { IsKnown (map_of stored.now) known.new }
{
    if let Some(term) = *known {
        if term.entry == entry.get() && term.gameweek == gameweek.get() {
            return term;
        }
    }
    let term = term_of(stored, terms, entry, gameweek);
    *known = Some(term);
    term
}

// Whether a number is 1, or the transfer before it is there.
fn is_next_number(stored: &Stored, entry: EntryId, gameweek: Gw, number: u32) -> bool
    ensures { result ≡ is_next_number (map_of stored.now) entry gameweek number }
{
    if number < 2 {
        return number == 1;
    }
    sale_of(stored, entry, gameweek, number - 1).is_some()
}

// Whether who goes and who comes are there.
fn names_players(stored: &Stored, sale: &Sale) -> bool
    ensures { result ≡ names_players (map_of stored.now) sale.now }
{
    stored.has(Slot::Player(sale.out.get())) && stored.has(Slot::Player(sale.into.get()))
}

// Whether both prices can be.
fn is_priced_sale(sale: &Sale) -> bool
    ensures { result ≡ is_priced_sale sale.now }
{
    is_price(sale.sold.get()) && is_price(sale.bought.get())
}

/// Whether a transfer is lawful, by what its gameweek says.
pub(crate) fn is_lawful_sale(
    stored: &Stored,
    term: Term,
    entry: EntryId,
    gameweek: Gw,
    number: u32,
    sale: &Sale,
) -> bool
    requires { term ≡ term_told (map_of stored.now) entry gameweek }
    ensures { result ≡ is_lawful_sale (map_of stored.now) entry gameweek number sale.now }
{
    term.open_to_transfers
        && number <= term.most
        && is_next_number(stored, entry, gameweek, number)
        && names_players(stored, sale)
        && is_priced_sale(sale)
}
