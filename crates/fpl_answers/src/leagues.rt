// What the views of leagues and cups show: a small function for each, and one for each list in it.
ghost use Rattle.std.specs.Prelude.{map};
ghost use Rattle.serde_json.specs.Data.{array};
ghost use Rattle.serde_json.specs.View.{items_of};
ghost use Rattle.fpl_answers.specs.LeagueData.{classic_data, cup_data, head_data, head_ranked_data, ranked_data, round_data};
ghost use Rattle.json_members.specs.Members.{count};
ghost use Rattle.json_members.specs.Tokens.{Appends, tokens_of};

use json::Writer;
use json_members::{text_of, write_count, write_integer, write_text};
use season_book::{ShownClassic, ShownCup, ShownHead, ShownHeadRanked, ShownRanked, Slots};
use std::alloc::AllocError;

pub(crate) fn write_classic(out: &mut Writer, league: &ShownClassic) -> Result<(), AllocError>
    ensures { Appends result out.old out.new (tokens_of (classic_data league.now)) }
{
    out.begin_object()?;
    write_text(out, "kind", "classic")?;
    write_text(out, "name", text_of(&league.name))?;
    out.key("rows")?;
    write_table(out, league.rows.as_slice())?;
    write_count(out, "start", u64::from(league.start.get()))?;
    out.end_object()
}

fn write_table(out: &mut Writer, rows: &[ShownRanked]) -> Result<(), AllocError>
    ensures { Appends result out.old out.new
        (tokens_of (array (items_of (map ranked_data rows.now)))) }
{
    out.begin_array()?;
    for ranked in rows {
        write_ranked(out, ranked)?;
    }
    out.end_array()
}

fn write_ranked(out: &mut Writer, ranked: &ShownRanked) -> Result<(), AllocError>
    ensures { Appends result out.old out.new (tokens_of (ranked_data ranked.now)) }
{
    let row = ranked.row;
    out.begin_object()?;
    write_count(out, "entry", u64::from(row.entry.get()))?;
    write_text(out, "name", text_of(&ranked.name))?;
    write_count(out, "rank", u64::from(row.rank))?;
    write_integer(out, "total", row.total)?;
    write_count(out, "transfers", u64::from(row.transfers))?;
    out.end_object()
}

pub(crate) fn write_head(out: &mut Writer, league: &ShownHead) -> Result<(), AllocError>
    ensures { Appends result out.old out.new (tokens_of (head_data league.now)) }
{
    out.begin_object()?;
    write_text(out, "kind", "head")?;
    write_text(out, "name", text_of(&league.name))?;
    out.key("rows")?;
    write_head_table(out, league.rows.as_slice())?;
    write_count(out, "start", u64::from(league.start.get()))?;
    out.end_object()
}

fn write_head_table(out: &mut Writer, rows: &[ShownHeadRanked]) -> Result<(), AllocError>
    ensures { Appends result out.old out.new
        (tokens_of (array (items_of (map head_ranked_data rows.now)))) }
{
    out.begin_array()?;
    for ranked in rows {
        write_head_ranked(out, ranked)?;
    }
    out.end_array()
}

fn write_head_ranked(out: &mut Writer, ranked: &ShownHeadRanked) -> Result<(), AllocError>
    ensures { Appends result out.old out.new (tokens_of (head_ranked_data ranked.now)) }
{
    let row = ranked.row;
    let score = row.score;
    out.begin_object()?;
    write_count(out, "drawn", u64::from(score.drawn))?;
    write_count(out, "entry", u64::from(row.entry.get()))?;
    write_count(out, "lost", u64::from(score.lost))?;
    write_text(out, "name", text_of(&ranked.name))?;
    write_count(out, "points", u64::from(score.points))?;
    write_count(out, "rank", u64::from(row.rank))?;
    write_integer(out, "scored", score.scored)?;
    write_count(out, "won", u64::from(score.won))?;
    out.end_object()
}

pub(crate) fn write_cup(out: &mut Writer, cup: &ShownCup) -> Result<(), AllocError>
    ensures { Appends result out.old out.new (tokens_of (cup_data cup.now)) }
{
    out.begin_object()?;
    out.key("rounds")?;
    write_rounds(out, cup.rounds.as_slice())?;
    write_count(out, "start", u64::from(cup.start.get()))?;
    out.end_object()
}

fn write_rounds(out: &mut Writer, rounds: &[Option<Slots>]) -> Result<(), AllocError>
    ensures { Appends result out.old out.new
        (tokens_of (array (items_of (map round_data rounds.now)))) }
{
    out.begin_array()?;
    for round in rounds {
        write_round(out, round)?;
    }
    out.end_array()
}

/// The winners of a round, or `null` while its gameweek is open.
fn write_round(out: &mut Writer, round: &Option<Slots>) -> Result<(), AllocError>
    ensures { Appends result out.old out.new (tokens_of (round_data round.now)) }
{
    match round {
        Some(winners) => write_winners(out, winners.as_slice()),
        None => out.null(),
    }
}

fn write_winners(out: &mut Writer, winners: &[u32]) -> Result<(), AllocError>
    ensures { Appends result out.old out.new
        (tokens_of (array (items_of (map count winners.now)))) }
{
    out.begin_array()?;
    for winner in winners {
        out.u64(u64::from(*winner))?;
    }
    out.end_array()
}
