// Free transfers, what the others cost, and the transfers that a table counts.
ghost use Rattle.std.specs.Prelude.{◌≡◌, ◌<◌, ◌≤◌, ◌+◌, ◌-◌, ◌*◌, ◌==◌, ◌&&◌, ◌||◌, nat_le, not, if◌then◌else◌};
ghost use Rattle.rule_book.specs.FreeTransfers.{free_next, transfer_cost};
ghost use Rattle.rule_book.specs.HistoryTransfers.{makes_free, free_from, counted_from, is_same_chip, half_of, used_before};
ghost use Rattle.season_ledger.specs.Rows.{Rise, chip_by, used_by};

use crate::Row;
use crate::rows::row_of;
use fpl_base::{Chip, Gw, Profile};
use squad_rules::{half_of, is_same_chip, makes_free};

// The free transfers of the next gameweek.
fn next_free(profile: Profile, free: u8, used: u16, chip: Chip) -> u8
    requires { free ≤ 5 }
    ensures step { result ≡ free_next profile free used chip }
    ensures most { result ≤ 5 }
{
    let kept = match profile {
        Profile::A => 1,
        Profile::B => free,
    };
    let most = match profile {
        Profile::A => 2,
        Profile::B => 5,
    };
    let rest = u16::from(free).saturating_sub(used) as u8;
    if makes_free(chip) {
        kept
    } else {
        (rest + 1).min(most)
    }
}

// The chip and the transfers of a gameweek.
fn doings(rows: &[Row], g: u8) -> (Chip, u16)
    ensures chip { result.0 ≡ chip_by rows.now g }
    ensures used { result.1 ≡ used_by rows.now g }
{
    match row_of(rows, g) {
        Some(standing) => (standing.team.chip, standing.made),
        None => (Chip::None, 0),
    }
}

// The free transfers of a gameweek after the first.
pub fn free_of(profile: Profile, rows: &[Row], first: u8, g: u8) -> u8
    requires { first < g }
    ensures free { result
        ≡ free_from profile (used_by rows.now) (chip_by rows.now) first (g - (first + 1)) }
    ensures most { result ≤ 5 }
{
    let mut free = 1;
    for w in first + 1..g {
        let (chip, used) = doings(rows, w);
        free = next_free(profile, free, used, chip);
    }
    free
}

// The points that the transfers of a gameweek after the first cost.
pub fn cost_of(profile: Profile, rows: &[Row], first: u8, g: u8) -> u32
    requires { first < g }
    ensures value { result
        ≡ transfer_cost
        (free_from profile (used_by rows.now) (chip_by rows.now) first (g - (first + 1)))
        (used_by rows.now g) (chip_by rows.now g) }
    ensures most { result ≤ 4 * used_by rows.now g }
{
    let (chip, used) = doings(rows, g);
    let paid = 4 * u32::from(used.saturating_sub(u16::from(free_of(profile, rows, first, g))));
    if makes_free(chip) { 0 } else { paid }
}

// What a row adds to the transfers of gameweeks 1 to g that a table counts.
fn counted_row(row: &Row, first: u8, g: u8) -> u16
    ensures { result
        ≡ (if nat_le row.now.gw g && (nat_le 1 row.now.gw
        && not ((row.now.gw == first) || makes_free row.now.standing.team.chip))
        then row.now.standing.made else 0) }
{
    let w = row.gw.get();
    if w > g || w == first || makes_free(row.standing.team.chip) {
        0
    } else {
        row.standing.made
    }
}

// The transfers of gameweeks 1 to g that a table counts.
pub fn counted_of(rows: &[Row], first: u8, g: u8) -> u32
    requires rise { Rise rows.now }
    ensures { result ≡ counted_from (used_by rows.now) (chip_by rows.now) first g }
{
    let mut sum = 0;
    // The gameweek of the last row, which bounds the sum, for the prover.
    let mut last = 0;
    for row in rows {
        sum += u32::from(counted_row(row, first, g));
        last = row.gw.get();
    }
    let _ = last;
    sum
}

// The earlier gameweek in which a chip was played, in the same half for a wildcard.
pub fn used_of(rows: &[Row], split: u8, chip: Chip, g: Gw) -> Option<Gw>
    ensures { result ≡ used_before split (chip_by rows.now) chip g }
{
    let from = half_of(split, chip, g.get());
    for w in from..g.get() {
        if is_same_chip(chip, doings(rows, w).0) {
            return Gw::new(w);
        }
    }
    None
}
