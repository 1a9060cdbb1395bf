// The members of a league.
ghost use Rattle.std.specs.Prelude.{◌≡◌, ◌≤◌, IfOk, None};
ghost use Rattle.store_validation.specs.Lawful.{judged};
ghost use Rattle.store_validation.specs.LeagueRules.{members_of};
ghost use Rattle.fpl_base.specs.Keeping.{KeysRise};

use fpl_base::{EntryId, LeagueId, Memory};
use std::alloc::Global;
use stored_records::Stored;

// The entry of this number.
fn entry(number: u32) -> EntryId
    requires { 1 ≤ number }
    ensures { result ≡ number }
{
    EntryId::new(number).unwrap()
}

/// The members of a league, by ascending number.
pub(crate) fn members_of(
    alloc: Global,
    stored: &Stored,
    league: LeagueId,
) -> Result<Vec<EntryId>, Memory>
    requires rise { KeysRise stored.now }
    requires lawful { judged stored.now ≡ None }
    ensures { IfOk result (λ ids. ids.items ≡ members_of stored.now league) }
{
    let rows = stored.members(league);
    let mut ids = Vec::with_capacity(alloc, rows.len())?;
    for row in rows {
        ids.push(entry(row.key().b))?;
    }
    Ok(ids)
}
