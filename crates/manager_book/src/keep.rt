// A judged deed is kept.
ghost use Rattle.std.specs.Prelude.{◌≡◌, ◌≤◌, ◌<◌, ◌+◌, ◌++◌, ℕ, List, length, map, OnOk, OnErr};
ghost use Rattle.std.specs.List.{AllByRecursion as Each};
ghost use Rattle.fpl_base.specs.declared.kinds.Position.{Position};
ghost use Rattle.rule_book.specs.History.{Event, in_gameweek};
ghost use Rattle.rule_book.specs.History.Deed.{Swap as Swapped};
ghost use Rattle.season_ledger.specs.Rows.{AllUpTo, IsFitTeam, put_row, standing_at, used_by};
ghost use Rattle.season_ledger.specs.Batches.{BatchOn};
ghost use Rattle.season_ledger.specs.Stands.{IsPlaced, StandsFor};
ghost use Rattle.manager_book.specs.Calls.{with_gameweek};
ghost use Rattle.manager_book.specs.Deeds.{Fits, HasPlaced, deeds_of, gameweek_of, rows_behind, sales_made};

use crate::deed::JudgedDeed;
use crate::entry_sales::EntrySales;
use fpl_base::{Gw, Memory};
use rule_book::{Sale, Team};
use season_ledger::Entry;

// Writes a batch: its sales behind the others, then the row of its gameweek. Where there is no memory for
// the row the sales are taken back.
fn write(
    season: &mut Entry,
    kept: &mut EntrySales,
    g: Gw,
    sales: &[Sale],
    after: &Team,
) -> Result<(), Memory>
    requires later { AllUpTo g season.old }
    requires some { 0 < length sales.now }
    requires few { used_by season.old g + length sales.now ≤ 1000 }
    requires batch { BatchOn sales.now (standing_at season.old g) after.now }
    requires sold { Each (λ s. s.sold ≤ 200) sales.now }
    requires fit { IsFitTeam after.now }
    ensures rows { OnOk result
        (season.new
        ≡ put_row season.old g
        (record { made = used_by season.old g + length sales.now; team = after.now })) }
    ensures sales { OnOk result (kept.new ≡ kept.old ++ with_gameweek g sales.now) }
    ensures history { (position : ℕ → Position) (h : List Event) → IsPlaced position after.now.picks
        → StandsFor position season.old h
        → OnOk result (StandsFor position season.new (h ++ in_gameweek g (map Swapped sales.now))) }
    ensures err { OnErr result (season.new ≡ season.old) }
    ensures err_sales { OnErr result (kept.new ≡ kept.old) }
{
    let before = kept.count();
    kept.append(g, sales)?;
    match season.transfer(g, sales, after) {
        Ok(()) => Ok(()),
        Err(_) => {
            kept.cut(before);
            Err(Memory)
        }
    }
}

/// Keeps a judged deed in the rows and the sales of its entry; both are unchanged where memory is wanting.
pub fn keep(season: &mut Entry, kept: &mut EntrySales, deed: &JudgedDeed) -> Result<(), Memory>
    requires { Fits season.old deed.now }
    ensures rows { OnOk result (season.new ≡ rows_behind season.old deed.now) }
    ensures sales { OnOk result (kept.new ≡ kept.old ++ sales_made deed.now) }
    ensures history { (position : ℕ → Position) (h : List Event) → HasPlaced position deed.now
        → StandsFor position season.old h
        → OnOk result
        (StandsFor position season.new
        (h ++ in_gameweek (gameweek_of deed.now) (deeds_of deed.now))) }
    ensures err { OnErr result (season.new ≡ season.old) }
    ensures err_sales { OnErr result (kept.new ≡ kept.old) }
{
    match deed {
        JudgedDeed::Squad { gameweek, team } => season.register(*gameweek, team),
        JudgedDeed::Transfers {
            gameweek,
            team,
            sales,
        } => write(season, kept, *gameweek, sales.as_slice(), team),
        JudgedDeed::Lineup { gameweek, team } => season.lineup(*gameweek, team),
        JudgedDeed::Chip { gameweek, chip } => season.play_chip(*gameweek, *chip),
        JudgedDeed::Cancel { gameweek } => {
            season.cancel_chip(*gameweek);
            Ok(())
        }
    }
}
