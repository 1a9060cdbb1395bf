// Rows by gameweek.
ghost use Rattle.std.specs.Prelude.{◌≡◌, ◌==◌, ◌<◌, ◌≤◌, ◌+◌, ℕ, [], length, OnOk, OnErr, IfOk, IfSome, option_copied};
ghost use Rattle.std.specs.List.{list_any};
ghost use Rattle.std.specs.Option.{option_map};
ghost use Rattle.rule_book.specs.EntryRecords.{sales_in};
ghost use Rattle.season_ledger.specs.Rows.{row_at, base_at, put_row, place_at, standing_at, is_up_to, first_in, row_of_record, rows_had, rows_of_records};

use crate::{Row, Standing};
use fpl_base::{Chip, Gw, Memory, PlayerId};
use rule_book::{Sale, Team};
use squad_rules::is_free_hit;
use std::alloc::Global;

// What a gameweek's own row has.
pub fn row_of(rows: &[Row], g: u8) -> Option<Standing>
    ensures { result ≡ row_at rows.now g }
{
    for row in rows {
        if row.gw.get() == g {
            return Some(row.standing);
        }
    }
    None
}

// The row of a gameweek by its number.
pub fn row_in(rows: &[Row], gameweek: u32) -> Option<&Row>
    ensures gameweek { IfSome result (λ row. row.now.gw ≡ gameweek) }
    ensures standing { option_map (λ row. row.standing) (option_copied result)
        ≡ row_at rows.now gameweek }
{
    for row in rows {
        if u32::from(row.gw.get()) == gameweek {
            return Some(row);
        }
    }
    None
}

// The last row before a gameweek without a free hit.
pub fn base_of(rows: &[Row], g: u8) -> Option<Row>
    ensures { result ≡ base_at rows.now g }
{
    let mut found = None;
    for row in rows {
        if row.gw.get() < g && !is_free_hit(row.standing.team.chip) {
            found = Some(*row);
        }
    }
    found
}

// What stands in a gameweek.
pub fn standing_of(rows: &[Row], g: u8) -> Option<Standing>
    ensures { result ≡ standing_at rows.now g }
{
    match row_of(rows, g) {
        Some(standing) => Some(standing),
        None => match base_of(rows, g) {
            Some(row) => {
                let mut team = row.standing.team;
                team.chip = Chip::None;
                Some(Standing { made: 0, team })
            }
            None => None,
        },
    }
}

fn place_of(rows: &[Row], g: u8) -> usize
    ensures place { result ≡ place_at rows.now g }
    ensures within { result ≤ length rows.now }
{
    let mut place = 0;
    while place < rows.len() && rows[place].gw.get() != g {
        place += 1;
    }
    place
}

// Writes the row of a gameweek.
pub fn put(rows: &mut Vec<Row>, g: Gw, standing: &Standing) -> Result<(), Memory>
    ensures ok { OnOk result (rows.new.items ≡ put_row rows.old.items g standing.now) }
    ensures err { OnErr result (rows.new.items ≡ rows.old.items) }
{
    let place = place_of(rows.as_slice(), g.get());
    let row = Row {
        gw: g,
        standing: *standing,
    };
    if place < rows.len() {
        rows[place] = row;
        return Ok(());
    }
    match rows.push(row) {
        Ok(()) => Ok(()),
        Err(_) => Err(Memory),
    }
}

// Writes the row of a gameweek that has one.
pub fn put_in_place(rows: &mut Vec<Row>, g: Gw, standing: &Standing)
    requires { place_at rows.old.items g < length rows.old.items }
    ensures { rows.new.items ≡ put_row rows.old.items g standing.now }
{
    let place = place_of(rows.as_slice(), g.get());
    rows[place] = Row {
        gw: g,
        standing: *standing,
    };
}

// Whether no row is later than a gameweek.
pub fn are_up_to(rows: &[Row], g: u8) -> bool
    ensures { result ≡ is_up_to g rows.now }
{
    for row in rows {
        if row.gw.get() > g {
            return false;
        }
    }
    true
}

// Whether a player stands in the team of a row.
pub fn has_had(rows: &[Row], player: PlayerId) -> bool
    ensures { result ≡ rows_had rows.now player }
{
    rows.iter().any(|row| holds(&row.standing.team, player))
}

fn holds(team: &Team, player: PlayerId) -> bool
    ensures { result ≡ list_any (λ pick. pick.player == player) team.now.picks }
{
    team.picks.iter().any(|pick| pick.player == player)
}

// The first gameweek.
pub fn first_of(rows: &[Row]) -> Option<Gw>
    ensures { result ≡ first_in rows.now }
{
    match rows {
        [] => None,
        [row, ..] => Some(row.gw),
    }
}

// How many transfers a gameweek has among records.
fn transfers_in(sales: &[(Gw, Sale)], g: u8) -> usize
    ensures count { result ≡ length (sales_in sales.now g) }
    ensures most { result ≤ length sales.now }
{
    let mut count = 0;
    for sale in sales {
        if sale.0.get() == g {
            count += 1;
        }
    }
    count
}

// What a team record and the transfers make of its gameweek.
fn standing_of_record(sales: &[(Gw, Sale)], team: &(Gw, Team)) -> Standing
    requires { length (sales_in sales.now team.now.0) ≤ 1000 }
    ensures { result ≡ (row_of_record sales.now team.now).standing }
{
    Standing {
        made: transfers_in(sales, team.0.get()) as u16,
        team: team.1,
    }
}

// The rows that team and transfer records make.
pub fn rows_of_records(
    alloc: Global,
    teams: &[(Gw, Team)],
    sales: &[(Gw, Sale)],
) -> Result<Vec<Row>, Memory>
    requires { (g : ℕ) → length (sales_in sales.now g) ≤ 1000 }
    ensures { IfOk result (λ rows. rows.items ≡ rows_of_records teams.now sales.now) }
{
    let mut rows = Vec::new(alloc);
    for team in teams {
        let standing = standing_of_record(sales, team);
        let row = Row {
            gw: team.0,
            standing,
        };
        if rows.push(row).is_err() {
            return Err(Memory);
        }
    }
    Ok(rows)
}
