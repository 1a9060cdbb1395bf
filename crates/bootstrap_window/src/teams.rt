// The clubs, as a window shows them.
ghost use Rattle.std.specs.Prelude.{◌≡◌, IfOk};
ghost use Rattle.std.specs.String.{string_bytes};
ghost use Rattle.json_members.specs.Tokens.{Appends, tokens_of};
ghost use Rattle.season_book.specs.Teams.{short_name, team_data, teams_window};

use fpl_base::{ClubId, Name};
use json::Writer;
use json_members::{text_of, write_count, write_text};
use std::alloc::{AllocError, Global};

/// The clubs, in the order in which they stand.
pub fn write_teams(
    out: &mut Writer,
    alloc: Global,
    clubs: &[(ClubId, Name)],
) -> Result<(), AllocError>
    ensures { Appends result out.old out.new (tokens_of (teams_window clubs.now)) }
{
    out.begin_array()?;
    for (club, name) in clubs {
        write_team(out, alloc, *club, name)?;
    }
    out.end_array()
}

fn write_team(out: &mut Writer, alloc: Global, club: ClubId, name: &Name) -> Result<(), AllocError>
    ensures { Appends result out.old out.new (tokens_of (team_data club name.now)) }
{
    let short = short_name(alloc, text_of(name))?;
    out.begin_object()?;
    write_count(out, "code", u64::from(club.get()))?;
    write_count(out, "id", u64::from(club.get()))?;
    write_text(out, "name", text_of(name))?;
    write_text(out, "short_name", short.as_str())?;
    out.end_object()
}

// The first three characters of a name.
fn short_name(alloc: Global, name: &str) -> Result<String, AllocError>
    ensures { IfOk result (λ short. string_bytes short ≡ short_name name.now) }
{
    let mut short = String::new(alloc);
    let mut left = 3u32;
    for letter in name.chars() {
        if left == 0 {
            return Ok(short);
        }
        short.push(letter)?;
        left -= 1;
    }
    Ok(short)
}
