// What the views show: a small function for each, and one for each list in it.
ghost use Rattle.std.specs.Prelude.{◌≡◌, ◌++◌, [], IfOk, map};
ghost use Rattle.serde_json.specs.Data.{array};
ghost use Rattle.serde_json.specs.View.{items_of};
ghost use Rattle.json_members.specs.Members.{count};
ghost use Rattle.fpl_answers.specs.ShownData.{club_data, figures_data, player_data, season_data, shown_text};
ghost use Rattle.json_members.specs.Tokens.{Appends, tokens_of};

use crate::entries::{write_entry_gameweek, write_me};
use crate::fixture::fixture_text;
use crate::kinds::profile_number;
use crate::leagues::{write_classic, write_cup, write_head};
use fpl_base::{ClubId, Moment, Name};
use json::Writer;
use json_members::{text_of, write_count, write_integer, write_text, write_truth};
use rule_book::{Figures, Player};
use season_book::{Page, Shown, ShownSeason};
use std::alloc::AllocError;

/// About how many bytes the text of a view takes.
pub(crate) fn room_of(shown: &Shown) -> usize {
    match shown {
        Shown::Season(season) => {
            let clubs = season.clubs.as_slice().len().saturating_mul(88);
            let deadlines = season.deadlines.as_slice().len().saturating_mul(14);
            clubs.saturating_add(deadlines).saturating_add(64)
        }
        Shown::Fixture(fixture) => {
            fixture
                .lines
                .as_slice()
                .len()
                .saturating_mul(56)
                .saturating_add(128)
        }
        Shown::Page(page) => page.as_slice().len(),
        Shown::Me(_) => 1280,
        Shown::EntryGameweek(_) => 320,
        Shown::Classic(league) => room_of_rows(league.rows.as_slice().len()),
        Shown::Head(league) => room_of_rows(league.rows.as_slice().len()),
        _ => 160,
    }
}

// About how many bytes a league of so many rows takes.
fn room_of_rows(rows: usize) -> usize {
    rows.saturating_mul(128).saturating_add(128)
}

/// The text of a view, behind what the writer's buffer held.
pub(crate) fn shown_text(mut out: Writer, shown: &Shown) -> Result<Vec<u8>, AllocError>
    requires { out.tokens ≡ [] }
    ensures { IfOk result (λ text. text.items ≡ out.before ++ shown_text shown.now) }
{
    match shown {
        Shown::Fixture(fixture) => return fixture_text(out, fixture),
        Shown::Page(page) => return page_text(out, page),
        Shown::Season(season) => write_season(&mut out, season)?,
        Shown::Player(player) => write_player(&mut out, player)?,
        Shown::PlayerGameweek(figures) => write_figures(&mut out, figures)?,
        Shown::Me(me) => write_me(&mut out, me)?,
        Shown::EntryGameweek(gameweek) => write_entry_gameweek(&mut out, gameweek)?,
        Shown::Classic(league) => write_classic(&mut out, league)?,
        Shown::Head(league) => write_head(&mut out, league)?,
        Shown::Cup(cup) => write_cup(&mut out, cup)?,
    }
    Ok(out.into_inner())
}

// The text of a window, as it is.
fn page_text(out: Writer, page: &Page) -> Result<Vec<u8>, AllocError>
    requires { out.tokens ≡ [] }
    ensures { IfOk result (λ text. text.items ≡ out.before ++ page.now) }
{
    let mut text = out.into_inner();
    text.extend_from_slice(page.as_slice())?;
    Ok(text)
}

fn write_season(out: &mut Writer, season: &ShownSeason) -> Result<(), AllocError>
    ensures { Appends result out.old out.new (tokens_of (season_data season.now)) }
{
    out.begin_object()?;
    out.key("clubs")?;
    write_clubs(out, season.clubs.as_slice())?;
    out.key("deadlines")?;
    write_moments(out, season.deadlines.as_slice())?;
    write_count(out, "locked", u64::from(season.locked))?;
    write_count(out, "profile", u64::from(profile_number(season.profile)))?;
    write_count(out, "split", u64::from(season.split))?;
    out.end_object()
}

fn write_clubs(out: &mut Writer, clubs: &[(ClubId, Name)]) -> Result<(), AllocError>
    ensures { Appends result out.old out.new
        (tokens_of (array (items_of (map club_data clubs.now)))) }
{
    out.begin_array()?;
    for (id, name) in clubs {
        write_club(out, *id, name)?;
    }
    out.end_array()
}

fn write_club(out: &mut Writer, id: ClubId, name: &Name) -> Result<(), AllocError>
    ensures { Appends result out.old out.new (tokens_of (club_data (id, name.now))) }
{
    out.begin_object()?;
    write_count(out, "id", u64::from(id.get()))?;
    write_text(out, "name", text_of(name))?;
    out.end_object()
}

fn write_moments(out: &mut Writer, moments: &[Moment]) -> Result<(), AllocError>
    ensures { Appends result out.old out.new
        (tokens_of (array (items_of (map count moments.now)))) }
{
    out.begin_array()?;
    for moment in moments {
        out.u64(moment.get())?;
    }
    out.end_array()
}

fn write_player(out: &mut Writer, player: &Player) -> Result<(), AllocError>
    ensures { Appends result out.old out.new (tokens_of (player_data player.now)) }
{
    out.begin_object()?;
    write_count(out, "club", u64::from(player.club.get()))?;
    write_truth(out, "gone", player.gone)?;
    write_count(out, "id", u64::from(player.id.get()))?;
    write_text(out, "name", text_of(&player.name))?;
    write_text(out, "position", player.position.letter())?;
    write_count(out, "price", u64::from(player.price.get()))?;
    out.end_object()
}

fn write_figures(out: &mut Writer, figures: &Figures) -> Result<(), AllocError>
    ensures { Appends result out.old out.new (tokens_of (figures_data figures.now)) }
{
    out.begin_object()?;
    write_count(out, "conceded", u64::from(figures.conceded))?;
    write_count(out, "goals", u64::from(figures.goals))?;
    write_truth(out, "played", figures.played)?;
    write_integer(out, "points", figures.points)?;
    out.end_object()
}
