// What the points of a line are made of, item by item.
ghost use Rattle.std.specs.Prelude.{◌≡◌, ◌≤◌, ◌*◌, ◌-ℤ◌, pos};
ghost use Rattle.json_members.specs.Tokens.{Appends, tokens_of};
ghost use Rattle.rule_book.specs.Figures.{figure};
ghost use Rattle.rule_book.specs.Points.{clean_sheet_points, counted_yellow, goal_points, is_clean_sheet, minutes_points};
ghost use Rattle.season_book.specs.Windows.{listed};
ghost use Rattle.season_book.specs.Explained.{conceded_worth, item, item_data, minutes_item, saves_worth, told_items, worth_points};
ghost use Rattle.live_windows.specs.ItemTokens.{first_items, item_tokens, kept_tokens, last_items, middle_items};

use fpl_base::{Position, Profile};
use json::Writer;
use json_members::{write_count, write_integer, write_text};
use rule_book::Line;
use std::alloc::AllocError;

// Writes the minutes of a line with this bonus, and what else of it gives or takes points.
pub fn write_items(
    out: &mut Writer,
    profile: Profile,
    position: Position,
    line: &Line,
    bonus: u8,
) -> Result<(), AllocError>
    ensures { Appends result out.old out.new
        (tokens_of (listed item_data (told_items profile position line.now bonus))) }
{
    out.begin_array()?;
    write_minutes(out, line)?;
    write_first(out, profile, position, line)?;
    write_middle(out, position, line)?;
    write_last(out, position, line, bonus)?;
    out.end_array()
}

fn write_minutes(out: &mut Writer, line: &Line) -> Result<(), AllocError>
    ensures { Appends result out.old out.new (tokens_of (item_data (minutes_item line.now))) }
{
    let minutes = figure(line, 1);
    write_item(out, "minutes", minutes_points(line), minutes)
}

// Goals, assists and a clean sheet.
fn write_first(
    out: &mut Writer,
    profile: Profile,
    position: Position,
    line: &Line,
) -> Result<(), AllocError>
    ensures { Appends result out.old out.new
        (kept_tokens (first_items profile position line.now)) }
{
    let goals = figure(line, 2);
    let assists = figure(line, 3);
    write_if(
        out,
        "goals_scored",
        goals_points(profile, position, goals),
        goals,
    )?;
    write_if(out, "assists", gain(3 * assists), assists)?;
    write_if(out, "clean_sheets", clean_sheet_points(position, line), 1)
}

// Goals against, and penalties.
fn write_middle(out: &mut Writer, position: Position, line: &Line) -> Result<(), AllocError>
    ensures { Appends result out.old out.new (kept_tokens (middle_items position line.now)) }
{
    let conceded = figure(line, 4);
    let own = figure(line, 10);
    let saved = figure(line, 6);
    let missed = figure(line, 7);
    write_if(
        out,
        "goals_conceded",
        conceded_points(position, conceded),
        conceded,
    )?;
    write_if(out, "own_goals", loss(2 * own), own)?;
    write_if(out, "penalties_saved", gain(5 * saved), saved)?;
    write_if(out, "penalties_missed", loss(2 * missed), missed)
}

// Cards, saves and the bonus.
fn write_last(
    out: &mut Writer,
    position: Position,
    line: &Line,
    bonus: u8,
) -> Result<(), AllocError>
    ensures { Appends result out.old out.new (kept_tokens (last_items position line.now bonus)) }
{
    let yellow = figure(line, 8);
    let red = figure(line, 9);
    let saves = figure(line, 5);
    write_if(out, "yellow_cards", loss(counted_yellow(line)), yellow)?;
    write_if(out, "red_cards", loss(3 * red), red)?;
    write_if(out, "saves", saves_points(position, saves), saves)?;
    write_if(out, "bonus", i32::from(bonus), u32::from(bonus))
}

// Writes an item that gives or takes points.
fn write_if(out: &mut Writer, name: &str, points: i32, value: u32) -> Result<(), AllocError>
    ensures { Appends result out.old out.new (item_tokens (item name.now points value)) }
{
    if points == 0 {
        Ok(())
    } else {
        write_item(out, name, points, value)
    }
}

fn write_item(out: &mut Writer, name: &str, points: i32, value: u32) -> Result<(), AllocError>
    ensures { Appends result out.old out.new (tokens_of (item_data (item name.now points value))) }
{
    out.begin_object()?;
    write_text(out, "identifier", name)?;
    write_integer(out, "points", points)?;
    write_count(out, "value", u64::from(value))?;
    out.end_object()
}

// The figure of a field, from 1.
pub fn figure(line: &Line, field: usize) -> u32
    requires first { 1 ≤ field }
    requires last { field ≤ 28 }
    ensures value { result ≡ figure line.now field }
    ensures small { result ≤ 65535 }
{
    u32::from(line.figures[field - 1])
}

// So many points that are given, and so many that are taken.
fn gain(points: u32) -> i32
    requires { points ≤ 1000000 }
    ensures { result ≡ pos points -ℤ pos 0 }
{
    points as i32
}

fn loss(points: u32) -> i32
    requires { points ≤ 1000000 }
    ensures { result ≡ pos 0 -ℤ pos points }
{
    0 - points as i32
}

fn minutes_points(line: &Line) -> i32
    ensures { result ≡ pos (minutes_points line.now) }
{
    let minutes = figure(line, 1);
    if minutes >= 60 {
        2
    } else if minutes >= 1 {
        1
    } else {
        0
    }
}

fn goals_points(profile: Profile, position: Position, goals: u32) -> i32
    requires { goals ≤ 65535 }
    ensures { result ≡ pos (goal_points profile position * goals) -ℤ pos 0 }
{
    match position {
        Position::Keeper => match profile {
            Profile::A => gain(6 * goals),
            Profile::B => gain(10 * goals),
        },
        Position::Defender => gain(6 * goals),
        Position::Midfielder => gain(5 * goals),
        Position::Forward => gain(4 * goals),
    }
}

// Whether at least an hour was played and no goal conceded.
pub fn is_clean_sheet(line: &Line) -> bool
    ensures { result ≡ is_clean_sheet line.now }
{
    figure(line, 1) >= 60 && figure(line, 4) == 0
}

fn clean_sheet_points(position: Position, line: &Line) -> i32
    ensures { result ≡ pos (clean_sheet_points position line.now) }
{
    if !is_clean_sheet(line) {
        return 0;
    }
    match position {
        Position::Keeper | Position::Defender => 4,
        Position::Midfielder => 1,
        Position::Forward => 0,
    }
}

fn conceded_points(position: Position, goals: u32) -> i32
    requires { goals ≤ 65535 }
    ensures { result ≡ worth_points (conceded_worth position) goals }
{
    match position {
        Position::Keeper | Position::Defender => loss(goals / 2),
        Position::Midfielder | Position::Forward => 0,
    }
}

fn saves_points(position: Position, saves: u32) -> i32
    requires { saves ≤ 65535 }
    ensures { result ≡ worth_points (saves_worth position) saves }
{
    match position {
        Position::Keeper => gain(saves / 3),
        Position::Defender | Position::Midfielder | Position::Forward => 0,
    }
}

// The yellow cards that count: none beside a red one.
pub fn counted_yellow(line: &Line) -> u32
    ensures value { result ≡ counted_yellow line.now }
    ensures small { result ≤ 65535 }
{
    let cards = figure(line, 8);
    if figure(line, 9) == 1 { 0 } else { cards }
}
