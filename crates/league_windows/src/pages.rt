// What is written of standings around their rows.
ghost use Rattle.std.specs.Prelude.{◌≡◌, codes};
ghost use Rattle.json_members.specs.Members.{no_list};
ghost use Rattle.json_members.specs.Tokens.{Appends, member_tokens};
ghost use Rattle.season_book.specs.Windows.{scoring_of};
ghost use Rattle.season_book.specs.LeaguePages.{bound_told, is_closed, league_told, one_page};
ghost use Rattle.league_windows.specs.Openings.{closing_tokens, opening_tokens, page_tokens};

use fpl_base::LeagueId;
use json::Writer;
use json_members::{
    text_of, write_count, write_count_or_null, write_no_list, write_text, write_truth,
};
use leagues_and_cups::League;
use rule_book::LeagueKind;
use std::alloc::AllocError;

/// How a league is decided, as windows tell it.
pub fn scoring_of(kind: LeagueKind) -> &'static str
    ensures { result.now ≡ scoring_of kind }
{
    match kind {
        LeagueKind::Classic => "c",
        LeagueKind::Head => "h",
    }
}

/// How many members a league of this kind is said to have at most; `None` where no bound is told.
pub fn bound_told(kind: LeagueKind) -> Option<u64>
    ensures { result ≡ bound_told kind }
{
    match kind {
        LeagueKind::Classic => None,
        LeagueKind::Head => Some(64),
    }
}

fn is_closed(league: &League) -> bool
    ensures { result ≡ is_closed league.now }
{
    match league.kind() {
        LeagueKind::Classic => false,
        LeagueKind::Head => league.is_drawn(),
    }
}

// The member that tells of a league.
fn write_league(out: &mut Writer, id: LeagueId, league: &League) -> Result<(), AllocError>
    ensures { Appends result out.old out.new (member_tokens (codes "league") (league_told id league.now)) }
{
    out.key("league")?;
    out.begin_object()?;
    write_count(out, "admin_entry", u64::from(league.creator().get()))?;
    write_truth(out, "closed", is_closed(league))?;
    write_text(out, "code_privacy", "p")?;
    write_count(out, "id", u64::from(id.get()))?;
    write_text(out, "league_type", "x")?;
    write_count_or_null(out, "max_entries", bound_told(league.kind()))?;
    write_text(out, "name", text_of(league.name()))?;
    write_text(out, "scoring", scoring_of(league.kind()))?;
    write_count(out, "start_event", u64::from(league.start().get()))?;
    out.end_object()
}

// Opens what is all on one page, up to its rows.
fn begin_page(out: &mut Writer) -> Result<(), AllocError>
    ensures { Appends result out.old out.new page_tokens }
{
    out.begin_object()?;
    write_truth(out, "has_next", false)?;
    write_count(out, "page", 1)?;
    out.key("results")
}

// The member that tells of new entries, of which there are none.
fn write_new_entries(out: &mut Writer) -> Result<(), AllocError>
    ensures { Appends result out.old out.new (member_tokens (codes "new_entries") (one_page no_list)) }
{
    out.key("new_entries")?;
    out.begin_object()?;
    write_truth(out, "has_next", false)?;
    write_count(out, "page", 1)?;
    write_no_list(out, "results")?;
    out.end_object()
}

// Opens the standings of a league, up to their rows.
pub(crate) fn begin_standings(
    out: &mut Writer,
    id: LeagueId,
    league: &League,
) -> Result<(), AllocError>
    ensures { Appends result out.old out.new (opening_tokens id league.now) }
{
    out.begin_object()?;
    write_league(out, id, league)?;
    write_new_entries(out)?;
    out.key("standings")?;
    begin_page(out)
}

// Closes them behind their rows.
pub(crate) fn end_standings(out: &mut Writer) -> Result<(), AllocError>
    ensures { Appends result out.old out.new closing_tokens }
{
    out.end_object()?;
    out.end_object()
}
