// What records tell of an entry, and when its teams and transfers may stand.
ghost use Rattle.std.specs.Prelude.{◌≡◌, ◌==◌, false, is_some};
ghost use Rattle.std.specs.Option.{option_map_or};
ghost use Rattle.fpl_base.specs.Keeping.{map_of};
ghost use Rattle.stored_records.specs.EntryTold.{chip_in, chip_told, first_told, is_between_ends, last_open, sale_told, team_told};

use crate::stored::Stored;
use crate::terms::Terms;
use fpl_base::{Chip, EntryId, Gw, PlayerId, Tenths};
use rule_book::Sale;
use season_records::{Item, Slot};

/// The team that a record tells: by slot the players, by number, with the prices at which they were bought, in tenths of
/// a million, the slots of captain and vice-captain, the bank, and the chip.
#[derive(Clone, Copy)]
pub struct RecordedTeam {
    pub picks: [(u32, u32); 15],
    pub captain: u8,
    pub vice: u8,
    pub bank: u32,
    pub chip: Chip,
}

/// The first gameweek of an entry, from 1 on; `None` where it is not registered or not there.
pub fn first_of(stored: &Stored, entry: u32) -> Option<Gw>
    ensures { result ≡ first_told (map_of stored.now) entry }
{
    match stored.item(Slot::Entry(entry)) {
        Some(Item::Entry { first, .. }) => *first,
        _ => None,
    }
}

/// The team of an entry in a gameweek; `None` where it has none there.
pub fn team_of(stored: &Stored, entry: EntryId, gameweek: u8) -> Option<RecordedTeam>
    ensures { result ≡ team_told (map_of stored.now) entry gameweek }
{
    match stored.item(Slot::Team(entry.get(), u32::from(gameweek))) {
        Some(
            Item::Team {
                picks,
                captain,
                vice,
                bank,
                chip,
                ..
            },
        ) => Some(RecordedTeam {
            picks: numbers_of(picks),
            captain: *captain,
            vice: *vice,
            bank: *bank,
            chip: *chip,
        }),
        _ => None,
    }
}

/// The players by number, with their prices in tenths of a million.
pub fn numbers_of(picks: &[(PlayerId, u16); 15]) -> [(u32, u32); 15]
    ensures { result ≡ picks.now }
{
    let mut numbers = [(0, 0); 15];
    for (place, pick) in picks.iter().enumerate() {
        numbers[place] = (pick.0.get(), u32::from(pick.1));
    }
    numbers
}

/// A transfer of an entry in a gameweek, by its number there, from 1 on; `None` where there is none.
pub fn sale_of(stored: &Stored, entry: EntryId, gameweek: Gw, number: u32) -> Option<Sale>
    ensures { result ≡ sale_told (map_of stored.now) entry gameweek number }
{
    let transfer = stored.transfer(entry, gameweek, number)?;
    sale(transfer.out, transfer.into, transfer.sold, transfer.bought)
}

/// A transfer at prices of a record, in tenths of a million.
pub fn sale(out: PlayerId, into: PlayerId, sold: u16, bought: u16) -> Option<Sale>
    ensures { result ≡ Some (record { out = out; into = into; sold = sold; bought = bought }) }
{
    let sold = Tenths::new(u32::from(sold))?;
    let bought = Tenths::new(u32::from(bought))?;
    Some(Sale {
        out,
        into,
        sold,
        bought,
    })
}

/// The chip of a team: none without a team.
pub fn chip_in(team: &Option<RecordedTeam>) -> Chip
    ensures { result ≡ chip_in team.now }
{
    match team {
        Some(team) => team.chip,
        None => Chip::None,
    }
}

/// The chip of an entry in a gameweek: none without a team.
pub fn chip_of(stored: &Stored, entry: EntryId, gameweek: u8) -> Chip
    ensures { result ≡ chip_told (map_of stored.now) entry gameweek }
{
    chip_in(&team_of(stored, entry, gameweek))
}

/// Whether a team or a transfer may stand in a gameweek, by the first gameweek of its entry: the entry is registered, and
/// the gameweek is there, not before its first and not after the last that may have one.
pub fn is_in_time(terms: &Terms, first: Option<Gw>, gameweek: Gw) -> bool
    ensures { result
        ≡ option_map_or (λ first. is_between_ends terms.now first gameweek) first false }
{
    match first {
        Some(first) => is_between_ends(terms, first, gameweek),
        None => false,
    }
}

/// Whether a gameweek is an entry's first; it is none's that is not registered.
pub fn is_first(first: Option<Gw>, gameweek: Gw) -> bool
    ensures { result ≡ option_map_or (λ first. first == gameweek) first false }
{
    match first {
        Some(first) => first.get() == gameweek.get(),
        None => false,
    }
}

fn is_between_ends(terms: &Terms, first: Gw, gameweek: Gw) -> bool
    ensures { result ≡ is_between_ends terms.now first gameweek }
{
    let g = gameweek.get();
    let gameweeks = terms.deadlines.as_slice().len();
    usize::from(g) <= gameweeks && first.get() <= g && usize::from(g) <= last_open(terms)
}

// The last gameweek that may have teams and transfers.
fn last_open(terms: &Terms) -> usize
    ensures { result ≡ last_open terms.now }
{
    let gameweeks = terms.deadlines.as_slice().len();
    let locked = usize::from(terms.locked);
    if locked < gameweeks {
        locked + 1
    } else {
        gameweeks
    }
}

/// Whether an entry has a team in a gameweek, in a record that is spelled as it has to be.
pub fn has_team(stored: &Stored, entry: EntryId, gameweek: Gw) -> bool
    ensures { result ≡ is_some (team_told (map_of stored.now) entry gameweek) }
{
    team_of(stored, entry, gameweek.get()).is_some()
}
