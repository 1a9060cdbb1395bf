// The books that lawful records tell.
ghost use Rattle.std.specs.Prelude.{◌≡◌, ℕ, List, [], IfOk, IfSome, None};
ghost use Rattle.std.specs.Option.{IsNone};
ghost use Rattle.fpl_base.specs.Keeping.{KeysRise, map_of};
ghost use Rattle.season_records.specs.declared.slot.Slot.{Slot};
ghost use Rattle.season_records.specs.Told.{AreInOrder};
ghost use Rattle.stored_records.specs.Stored.{told};
ghost use Rattle.store_validation.specs.Lawful.{judged};
ghost use Rattle.season_running.specs.Standing.{host_rows};
ghost use Rattle.record_changes.specs.Ordered.{AreRowsInOrder};
ghost use Rattle.record_changes.specs.RowsTold.{told_by};
ghost use Rattle.season_restoring.specs.Restored.{TellsFacts};
ghost use Rattle.season_restoring.specs.Books.{IsRunningInOrder, MayRun, RunningTells};

use crate::cups::cups_of;
use crate::last_commands::lasts_of;
use crate::leagues::leagues_of;
use crate::managers::managers_of;
use crate::restoring::facts_of;
use fpl_base::Memory;
use season_facts::Season;
use season_running::{Lasts, RunningSeason};
use std::alloc::Global;
use stored_records::Stored;

/// What a store's records tell of a season: the season as it runs, where one was begun, and each caller's last command.
#[derive(Drop)]
pub struct Restored {
    pub running: Option<RunningSeason>,
    pub lasts: Lasts,
}

/// The books that lawful records tell: at each slot what its record tells, and nothing where there is none. It takes memory
/// in proportion to the records, and goes through each of them a few times.
pub fn books_of(alloc: Global, stored: &Stored) -> Result<Restored, Memory>
    requires rise { KeysRise stored.now }
    requires lawful { judged stored.now ≡ None }
    ensures told { IfOk result
        (λ made. (operator : List ℕ) (s : Slot)
        → told_by (host_rows operator made.running made.lasts) s ≡ told (map_of stored.now) s) }
    ensures ordered { IfOk result
        (λ made. (operator : List ℕ)
        → AreRowsInOrder (host_rows operator made.running made.lasts)) }
{
    let rows = stored.as_slice();
    let lasts = lasts_of(alloc, rows)?;
    let season = facts_of(alloc, rows)?;
    let running = running_if(alloc, stored, season)?;
    Ok(Restored { running, lasts })
}

// The running season, where there is one.
fn running_if(
    alloc: Global,
    stored: &Stored,
    season: Option<Season>,
) -> Result<Option<RunningSeason>, Memory>
    requires rise { KeysRise stored.now }
    requires lawful { judged stored.now ≡ None }
    requires none { IsNone season → stored.now ≡ [] }
    requires told { IfSome season (λ facts. TellsFacts (map_of stored.now) facts) }
    requires ordered { IfSome season (λ facts. AreInOrder facts) }
    ensures { IfOk result (MayRun stored.now) }
{
    match season {
        Some(season) => Ok(Some(running_of(alloc, stored, season)?)),
        None => Ok(None),
    }
}

// The running season of these facts, with its entries, leagues and cups.
fn running_of(alloc: Global, stored: &Stored, season: Season) -> Result<RunningSeason, Memory>
    requires rise { KeysRise stored.now }
    requires lawful { judged stored.now ≡ None }
    requires facts { TellsFacts (map_of stored.now) season }
    requires ordered { AreInOrder season }
    ensures told { IfOk result (RunningTells (map_of stored.now)) }
    ensures ordered { IfOk result IsRunningInOrder }
{
    let managers = managers_of(alloc, stored, season.profile(), season.players())?;
    let leagues = leagues_of(alloc, stored)?;
    let cups = cups_of(alloc, stored.as_slice())?;
    Ok(RunningSeason::of_parts(season, managers, leagues, cups))
}
