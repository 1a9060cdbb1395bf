// What is written of each of the two of a match.
ghost use Rattle.std.specs.Prelude.{◌≡◌};
ghost use Rattle.serde_json.specs.Data.{no_members};
ghost use Rattle.json_members.specs.Members.{count, count_or_null, integer};
ghost use Rattle.json_members.specs.Tokens.{Appends, all_member_tokens, member_tokens};
ghost use Rattle.season_book.specs.HeadMatches.{drawn_shown, first_members, lost_shown, match_members, match_points_shown, points_shown, second_members, seen_by_other, won_shown};

use fpl_base::{EntryId, LeagueId};
use json::Writer;
use json_members::{
    write_count, write_count_or_null, write_integer, write_nothing, write_text, write_truth,
};
use leagues_and_cups::result;
use std::alloc::AllocError;

// A match as the other of the two sees it.
pub fn seen_by_other(played: Option<(i32, i32)>) -> Option<(i32, i32)>
    ensures { result ≡ seen_by_other played }
{
    match played {
        Some((own, other)) => Some((other, own)),
        None => None,
    }
}

pub fn write_first(
    out: &mut Writer,
    entry: &Option<EntryId>,
    name: &str,
    played: Option<(i32, i32)>,
) -> Result<(), AllocError>
    ensures { Appends result out.old out.new
        (all_member_tokens (first_members entry.now name.now played no_members)) }
{
    write_drawn(out, "entry_1_draw", played)?;
    write_number(out, "entry_1_entry", entry)?;
    write_lost(out, "entry_1_loss", played)?;
    write_text(out, "entry_1_name", name)?;
    write_text(out, "entry_1_player_name", "")?;
    write_points(out, "entry_1_points", played)?;
    write_match_points(out, "entry_1_total", played)?;
    write_won(out, "entry_1_win", played)
}

pub fn write_second(
    out: &mut Writer,
    entry: &Option<EntryId>,
    name: &str,
    played: Option<(i32, i32)>,
) -> Result<(), AllocError>
    ensures { Appends result out.old out.new
        (all_member_tokens (second_members entry.now name.now played no_members)) }
{
    write_drawn(out, "entry_2_draw", played)?;
    write_number(out, "entry_2_entry", entry)?;
    write_lost(out, "entry_2_loss", played)?;
    write_text(out, "entry_2_name", name)?;
    write_text(out, "entry_2_player_name", "")?;
    write_points(out, "entry_2_points", played)?;
    write_match_points(out, "entry_2_total", played)?;
    write_won(out, "entry_2_win", played)
}

// What stands in a match behind the two.
pub fn write_place(
    out: &mut Writer,
    league: LeagueId,
    gameweek: u8,
    place: u8,
) -> Result<(), AllocError>
    ensures { Appends result out.old out.new
        (all_member_tokens (match_members league gameweek place)) }
{
    write_count(out, "event", u64::from(gameweek))?;
    write_count(out, "id", 1000 * u64::from(gameweek) + u64::from(place))?;
    write_truth(out, "is_bye", false)?;
    write_truth(out, "is_knockout", false)?;
    write_count(out, "league", u64::from(league.get()))?;
    write_nothing(out, "winner")
}

// What a match gave to one of the two, who has the first of the points; nothing while its gameweek is open.

fn write_drawn(out: &mut Writer, name: &str, played: Option<(i32, i32)>) -> Result<(), AllocError>
    ensures { Appends result out.old out.new (member_tokens name.now (count (drawn_shown played))) }
{
    write_count(out, name, drawn(played))
}

fn write_lost(out: &mut Writer, name: &str, played: Option<(i32, i32)>) -> Result<(), AllocError>
    ensures { Appends result out.old out.new (member_tokens name.now (count (lost_shown played))) }
{
    write_count(out, name, lost(played))
}

fn write_won(out: &mut Writer, name: &str, played: Option<(i32, i32)>) -> Result<(), AllocError>
    ensures { Appends result out.old out.new (member_tokens name.now (count (won_shown played))) }
{
    write_count(out, name, won(played))
}

fn write_points(out: &mut Writer, name: &str, played: Option<(i32, i32)>) -> Result<(), AllocError>
    ensures { Appends result out.old out.new (member_tokens name.now (integer (points_shown played))) }
{
    match played {
        Some((own, _)) => write_integer(out, name, own),
        None => write_integer(out, name, 0),
    }
}

fn write_match_points(
    out: &mut Writer,
    name: &str,
    played: Option<(i32, i32)>,
) -> Result<(), AllocError>
    ensures { Appends result out.old out.new (member_tokens name.now (count (match_points_shown played))) }
{
    write_count(out, name, match_points(played))
}

fn match_points(played: Option<(i32, i32)>) -> u64
    ensures { result ≡ match_points_shown played }
{
    match played {
        Some((own, other)) => u64::from(result(own, other)),
        None => 0,
    }
}

fn won(played: Option<(i32, i32)>) -> u64
    ensures { result ≡ won_shown played }
{
    match played {
        Some((own, other)) => u64::from(own > other),
        None => 0,
    }
}

fn drawn(played: Option<(i32, i32)>) -> u64
    ensures { result ≡ drawn_shown played }
{
    match played {
        Some((own, other)) => u64::from(own == other),
        None => 0,
    }
}

fn lost(played: Option<(i32, i32)>) -> u64
    ensures { result ≡ lost_shown played }
{
    match played {
        Some((own, other)) => u64::from(own < other),
        None => 0,
    }
}

// The number of an entry, which the Average has not.
fn write_number(out: &mut Writer, name: &str, entry: &Option<EntryId>) -> Result<(), AllocError>
    ensures { Appends result out.old out.new (member_tokens name.now (count_or_null entry.now)) }
{
    write_count_or_null(out, name, number_of(entry))
}

pub fn number_of(entry: &Option<EntryId>) -> Option<u64>
    ensures { result ≡ entry.now }
{
    match entry {
        Some(entry) => Some(u64::from(entry.get())),
        None => None,
    }
}
