// The rules on entries, their teams and their transfers, by what a record says.
ghost use Rattle.std.specs.Prelude.{◌≡◌};
ghost use Rattle.fpl_base.specs.Keeping.{map_of};
ghost use Rattle.stored_records.specs.SeasonRules.{terms_told};
ghost use Rattle.store_validation.specs.EntryRules.{entry_breaks, team_breaks, transfer_breaks};
ghost use Rattle.store_validation.specs.TransferRules.{IsKnown};

use crate::team_rules::is_lawful_team;
use crate::transfer_rules::{Term, is_lawful_sale, known_term};
use fpl_base::{Chip, EntryId, Gw, PlayerId};
use stored_records::{RecordedTeam, Stored, Terms, Transfer, has_team, numbers_of, sale};

/// Whether a registered entry has no team in its first gameweek; `first` is what its record says.
pub(crate) fn entry_breaks(stored: &Stored, entry: EntryId, first: Option<Gw>) -> bool
    ensures { result ≡ entry_breaks (map_of stored.now) entry first }
{
    match first {
        Some(gameweek) => !has_team(stored, entry, gameweek),
        None => false,
    }
}

/// Whether a team is not lawful; its fields are those of its record.
pub(crate) fn team_breaks(
    stored: &Stored,
    terms: &Terms,
    entry: EntryId,
    gameweek: Gw,
    picks: &[(PlayerId, u16); 15],
    captain: u8,
    vice: u8,
    bank: u32,
    chip: Chip,
) -> bool
    requires { terms.now ≡ terms_told (map_of stored.now) }
    ensures { result
        ≡ team_breaks (map_of stored.now) entry gameweek picks.now captain vice bank chip }
{
    let team = RecordedTeam {
        picks: numbers_of(picks),
        captain,
        vice,
        bank,
        chip,
    };
    !is_lawful_team(stored, terms, entry, gameweek, &team)
}

/// Whether a transfer is not lawful. What its gameweek says is worked out once for all transfers of the gameweek: it is known
/// from the first of them on.
pub(crate) fn transfer_breaks(
    stored: &Stored,
    terms: &Terms,
    known: &mut Option<Term>,
    transfer: Transfer,
) -> bool
    requires terms { terms.now ≡ terms_told (map_of stored.now) }
    requires known { IsKnown (map_of stored.now) known.old }
    ensures breaks { result
        ≡ transfer_breaks (map_of stored.now) transfer.entry transfer.gameweek transfer.number
        transfer.out transfer.into transfer.sold transfer.bought }
    ensures known { IsKnown (map_of stored.now) known.new }
{
    let t = transfer;
    let term = known_term(stored, terms, known, t.entry, t.gameweek);
    match sale(t.out, t.into, t.sold, t.bought) {
        Some(sale) => !is_lawful_sale(stored, term, t.entry, t.gameweek, t.number, &sale),
        None => true,
    }
}
