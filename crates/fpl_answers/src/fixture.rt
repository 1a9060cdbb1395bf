// The text of a fixture. `json`'s writer writes what stands before its lines. These are placed as bytes in a block that
// has room for the longest eight, the last line first and each from its end, as `itoa` gives the digits.
ghost use Rattle.std.specs.Prelude.{◌≡◌, ◌+◌, ◌≤◌, ◌++◌, [], IfOk, OnOk, decimal, drop, length, map};
ghost use Rattle.serde_json.specs.Data.{array, number};
ghost use Rattle.serde_json.specs.Find.{of_integer};
ghost use Rattle.serde_json.specs.View.{items_of};
ghost use Rattle.serde_json.specs.Written.{comma_if, compact_text};
ghost use Rattle.fpl_answers.specs.FixtureParts.{head_tokens, text_from};
ghost use Rattle.fpl_answers.specs.ShownData.{fixture_data, line_data};
ghost use Rattle.json_members.specs.Tokens.{Appends};

use crate::members::write_gameweek;
use itoa::write_digits;
use json::Writer;
use json_members::{write_count, write_truth};
use season_book::{ShownFixture, ShownLine};
use std::alloc::AllocError;

/// The text of a fixture, behind what the writer's buffer held.
pub(crate) fn fixture_text(mut out: Writer, shown: &ShownFixture) -> Result<Vec<u8>, AllocError>
    requires { out.tokens ≡ [] }
    ensures { IfOk result (λ text. text.items ≡ out.before ++ compact_text (fixture_data shown.now)) }
{
    write_head(&mut out, shown)?;
    let mut text = out.into_inner();
    put_lines(&mut text, shown.lines.as_slice())?;
    text.extend_from_slice(b"}")?;
    Ok(text)
}

/// What stands before the lines.
fn write_head(out: &mut Writer, shown: &ShownFixture) -> Result<(), AllocError>
    ensures { Appends result out.old out.new (head_tokens shown.now) }
{
    let fixture = shown.fixture;
    out.begin_object()?;
    write_count(out, "away", u64::from(fixture.away.get()))?;
    write_truth(out, "finished", shown.finished)?;
    write_gameweek(out, fixture.gw)?;
    write_count(out, "home", u64::from(fixture.home.get()))?;
    write_count(out, "id", u64::from(fixture.id.get()))?;
    write_count(out, "kickoff", fixture.kickoff.get())?;
    out.key("lines")
}

/// Appends lines as a list, eight at a time.
fn put_lines(out: &mut Vec<u8>, lines: &[ShownLine]) -> Result<(), AllocError>
    ensures { OnOk result
        (out.new.items ≡ out.old.items ++ compact_text (array (items_of (map line_data lines.now)))) }
{
    let mut block = [0; 1024];
    let mut done = 0;
    out.extend_from_slice(b"[")?;
    while done < lines.len() {
        let to = lines.len().min(done.saturating_add(8));
        let start = place_lines(&mut block, lines, done, to);
        out.extend_from_slice(&block[start..])?;
        done = to;
    }
    out.extend_from_slice(b"]")
}

/// Places up to eight of the lines at the end of the block, the last one first. Answers where they begin.
#[inline(always)]
fn place_lines(block: &mut [u8; 1024], lines: &[ShownLine], from: usize, to: usize) -> usize
    requires { (from ≤ to) × (to ≤ from + 8) × (to ≤ length lines.now) }
    ensures placed { drop result block.new ++ text_from lines.now to ≡ text_from lines.now from }
    ensures within { result ≤ 1024 }
{
    let mut at = 1024;
    let mut left = to;
    while left > from {
        left -= 1;
        at = place_line(block, at, &lines[left]);
        at = place_comma(block, at, left > 0);
    }
    at
}

/// Places a line in front of what stands from `end`. Answers where it begins.
#[inline(always)]
fn place_line(block: &mut [u8], end: usize, line: &ShownLine) -> usize
    requires { (119 ≤ end) × (end ≤ length block.old) }
    ensures placed { drop result block.new
        ≡ compact_text (line_data line.now) ++ drop end block.old }
    ensures within { (result ≤ end) × (end ≤ result + 119) }
{
    let at = place(block, end, b"}");
    let at = place_integer(block, at, line.points);
    let at = place(block, at, br#","points":"#);
    let at = place_count(block, at, u64::from(line.player.get()));
    let at = place(block, at, br#","player":"#);
    let at = place_integer(block, at, line.bps);
    let at = place(block, at, br#","bps":"#);
    let at = place_count(block, at, u64::from(line.bonus));
    place(block, at, br#"{"bonus":"#)
}

/// Places a comma in the same way, where another line stands before it.
#[inline(always)]
fn place_comma(block: &mut [u8], end: usize, later: bool) -> usize
    requires { (1 ≤ end) × (end ≤ length block.old) }
    ensures placed { drop result block.new ≡ comma_if later ++ drop end block.old }
    ensures within { (result ≤ end) × (end ≤ result + 1) }
{
    if later { place(block, end, b",") } else { end }
}

/// Places constant bytes in the same way.
#[inline(always)]
fn place<const N: usize>(block: &mut [u8], end: usize, text: &[u8; N]) -> usize
    requires { (N ≤ end) × (end ≤ length block.old) }
    ensures placed { drop result block.new ≡ text.now ++ drop end block.old }
    ensures within { result + N ≡ end }
{
    let start = end - N;
    block[start..end].copy_from_slice(text);
    start
}

/// Places a whole number from 0 in the same way.
#[inline(always)]
fn place_count(block: &mut [u8], end: usize, n: u64) -> usize
    requires { (20 ≤ end) × (end ≤ length block.old) }
    ensures placed { drop result block.new ≡ decimal n ++ drop end block.old }
    ensures within { (result ≤ end) × (end ≤ result + 20) }
{
    write_digits(n, block, end)
}

/// Places a whole number in the same way.
#[inline(always)]
fn place_integer(block: &mut [u8], end: usize, n: i32) -> usize
    requires { (21 ≤ end) × (end ≤ length block.old) }
    ensures placed { drop result block.new
        ≡ compact_text (number (of_integer n)) ++ drop end block.old }
    ensures within { (result ≤ end) × (end ≤ result + 21) }
{
    let start = place_count(block, end, u64::from(n.unsigned_abs()));
    if n < 0 {
        place(block, start, b"-")
    } else {
        start
    }
}
