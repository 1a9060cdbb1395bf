// The report of an entry's gameweek: its slots, and what it scored.
ghost use Rattle.std.specs.Prelude.{◌≡◌, ◌≤◌, ◌==◌, ◌||◌, ◌++◌, IfOk, length};
ghost use Rattle.std.specs.List.{list_any};
ghost use Rattle.csv.specs.Writing.{default_writer, row_text};
ghost use Rattle.fpl_reports.specs.Reports.{counts, entry_rows, factor_at, is_boost, rows_text, slot_row, slot_rows};

use crate::lines::{Report, number, signed};
use crate::season_report::marked;
use fpl_base::{Chip, Memory, PlayerId};
use rule_book::Armband;
use season_book::ShownEntryGameweek;
use std::alloc::Global;

pub(crate) fn entry_report(alloc: Global, entry: &ShownEntryGameweek) -> Result<Vec<u8>, Memory>
    ensures { IfOk result (λ text. text.items ≡ rows_text (entry_rows entry.now)) }
{
    let report = Report::new(alloc).with(&[
        "slot".as_bytes(),
        "player".as_bytes(),
        "counted".as_bytes(),
        "factor".as_bytes(),
    ])?;
    let report = put_slots(alloc, report, entry, &entry.players)?;
    let net = signed(alloc, entry.score.net)?;
    let nothing = "".as_bytes();
    report
        .with(&["net".as_bytes(), net.as_bytes(), nothing, nothing])?
        .text()
}

fn put_slots(
    alloc: Global,
    report: Report,
    entry: &ShownEntryGameweek,
    players: &[PlayerId],
) -> Result<Report, Memory>
    requires { length players.now ≤ 15 }
    ensures { IfOk result
        (λ longer. longer ≡ report ++ rows_text (slot_rows entry.now 1 players.now)) }
{
    let mut longer = report;
    let mut slot = 0u8;
    for player in players {
        slot += 1;
        longer = put_slot(alloc, longer, entry, slot, *player)?;
    }
    Ok(longer)
}

fn put_slot(
    alloc: Global,
    report: Report,
    entry: &ShownEntryGameweek,
    slot: u8,
    player: PlayerId,
) -> Result<Report, Memory>
    ensures { IfOk result (λ longer.
        longer ≡ report ++ row_text default_writer (slot_row entry.now slot player)) }
{
    let slot_text = number(alloc, u64::from(slot))?;
    let player_text = number(alloc, u64::from(player.get()))?;
    let factor = number(alloc, u64::from(factor_of(&entry.score.armband, slot)))?;
    let counted = marked(is_counted(entry, slot));
    report.with(&[
        slot_text.as_bytes(),
        player_text.as_bytes(),
        counted,
        factor.as_bytes(),
    ])
}

fn is_counted(entry: &ShownEntryGameweek, slot: u8) -> bool
    ensures { result ≡ counts entry.now slot }
{
    is_among(&entry.score.eleven.slots, slot) || is_bench_boost(&entry.chip)
}

fn is_among(slots: &[u8], slot: u8) -> bool
    ensures { result ≡ list_any (λ s. s == slot) slots.now }
{
    slots.iter().any(|s| *s == slot)
}

fn is_bench_boost(chip: &Chip) -> bool
    ensures { result ≡ is_boost chip.now }
{
    matches!(*chip, Chip::BenchBoost)
}

fn factor_of(armband: &Option<Armband>, slot: u8) -> u8
    ensures { result ≡ factor_at armband.now slot }
{
    match armband {
        Some(armband) => {
            if armband.slot == slot {
                armband.factor
            } else {
                1
            }
        }
        None => 1,
    }
}
