// The facts of a season from its records.
ghost use Rattle.std.specs.Prelude.{◌≡◌, [], IfOk, IfSome, IsNone, IsSome, None, Some};
ghost use Rattle.fpl_base.specs.Keeping.{KeysRise, map_of};
ghost use Rattle.store_validation.specs.Lawful.{judged};
ghost use Rattle.season_records.specs.Told.{AreInOrder};
ghost use Rattle.season_records.specs.ItemReading.{item_of};
ghost use Rattle.season_restoring.specs.Restored.{AreTerms, RowsFit, TellsFacts, begun, season_told, terms_in, with_locked, with_rows};

use crate::fact_parts::Parts;
use fpl_base::{Memory, Profile};
use season_book::Moments;
use season_facts::Season;
use season_records::Item;
use std::alloc::Global;
use stored_records::Kept;

/// The facts that lawful records tell; `None` where they tell of no season, which is where there are none at all. It takes
/// memory.
pub fn facts_of(alloc: Global, rows: &[Kept]) -> Result<Option<Season>, Memory>
    requires rise { KeysRise rows.now }
    requires lawful { judged rows.now ≡ None }
    ensures none { IfOk result (λ season. IsNone season → rows.now ≡ []) }
    ensures told { IfOk result
        (λ season. IfSome season (λ facts. TellsFacts (map_of rows.now) facts)) }
    ensures ordered { IfOk result (λ season. IfSome season (λ facts. AreInOrder facts)) }
{
    let Some(first) = rows.first() else {
        return Ok(None);
    };
    let terms = terms_at(first)?;
    let season = restored(alloc, &terms, rows)?;
    Ok(Some(season))
}

/// What the season's own record tells.
#[derive(Drop)]
pub struct Terms {
    profile: Profile,
    /// The last gameweek of the first half.
    split: u8,
    /// How many gameweeks are locked.
    locked: u8,
    /// The deadline of each gameweek.
    deadlines: Moments,
}

// What the record of the season tells.
fn terms_at(row: &Kept) -> Result<Terms, Memory>
    requires { IsSome (terms_in (item_of row.now.0 row.now.1)) }
    ensures { IfOk result (λ terms. item_of row.now.0 row.now.1 ≡ Some (season_told terms)) }
{
    match row.item() {
        Some(
            Item::Season {
                profile,
                split,
                locked,
                deadlines,
            },
        ) => Ok(Terms {
            profile: *profile,
            split: *split,
            locked: *locked,
            deadlines: deadlines.copy()?,
        }),
        _ => unreachable!(),
    }
}

// The season of these terms with what each record tells.
fn restored(alloc: Global, terms: &Terms, rows: &[Kept]) -> Result<Season, Memory>
    requires rise { KeysRise rows.now }
    requires lawful { judged rows.now ≡ None }
    requires terms { AreTerms rows.now terms.now }
    ensures { IfOk result
        (λ season. season ≡ with_locked (with_rows (begun terms.now) rows.now) terms.now.locked) }
{
    let begun = Parts::begin(alloc, terms.profile, &terms.deadlines, terms.split)?;
    with_rows(begun, rows)?.into_season(alloc, terms.locked)
}

// The parts with what each record tells.
fn with_rows(begun: Parts, rows: &[Kept]) -> Result<Parts, Memory>
    requires { RowsFit begun rows.now }
    ensures { IfOk result (λ parts. parts ≡ with_rows begun rows.now) }
{
    let mut parts = begun;
    'rows: for row in rows {
        parts.take_row(row)?;
    }
    Ok(parts)
}
