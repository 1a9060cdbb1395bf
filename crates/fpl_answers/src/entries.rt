// What the views of entries show: a small function for each, and one for each list in it.
ghost use Rattle.std.specs.Prelude.{◌≡◌, codes, map};
ghost use Rattle.serde_json.specs.Data.{array};
ghost use Rattle.serde_json.specs.View.{items_of};
ghost use Rattle.json_members.specs.Members.{count, count_or_null};
ghost use Rattle.fpl_answers.specs.ShownData.{armband_factor, armband_slot, entry_gameweek_data, me_data, pick_data};
ghost use Rattle.json_members.specs.Tokens.{Appends, member_tokens, tokens_of};

use crate::kinds::chip_word;
use crate::members::write_gameweek;
use fpl_base::PlayerId;
use json::Writer;
use json_members::{write_count, write_integer, write_nothing, write_text};
use rule_book::Armband;
use season_book::{ShownEntryGameweek, ShownMe, ShownPick};
use std::alloc::AllocError;

pub(crate) fn write_me(out: &mut Writer, me: &ShownMe) -> Result<(), AllocError>
    ensures { Appends result out.old out.new (tokens_of (me_data me.now)) }
{
    out.begin_object()?;
    write_count(out, "bank", u64::from(me.bank.get()))?;
    write_count(out, "captain", u64::from(me.captain.get()))?;
    write_text(out, "chip", chip_word(me.chip))?;
    write_count(out, "cost", u64::from(me.cost))?;
    write_count(out, "entry", u64::from(me.entry.get()))?;
    write_free(out, me.free)?;
    write_gameweek(out, me.gameweek)?;
    write_count(out, "last", me.last)?;
    out.key("players")?;
    write_picks(out, &me.players)?;
    write_integer(out, "total", me.total)?;
    write_count(out, "vice", u64::from(me.vice.get()))?;
    out.end_object()
}

/// Free transfers, or `null` in the first gameweek, in which all are free.
fn write_free(out: &mut Writer, free: Option<u8>) -> Result<(), AllocError>
    ensures { Appends result out.old out.new (member_tokens (codes "free") (count_or_null free)) }
{
    match free {
        Some(free) => write_count(out, "free", u64::from(free)),
        None => write_nothing(out, "free"),
    }
}

fn write_picks(out: &mut Writer, picks: &[ShownPick]) -> Result<(), AllocError>
    ensures { Appends result out.old out.new
        (tokens_of (array (items_of (map pick_data picks.now)))) }
{
    out.begin_array()?;
    for pick in picks {
        write_pick(out, pick)?;
    }
    out.end_array()
}

fn write_pick(out: &mut Writer, pick: &ShownPick) -> Result<(), AllocError>
    ensures { Appends result out.old out.new (tokens_of (pick_data pick.now)) }
{
    out.begin_object()?;
    write_count(out, "bought", u64::from(pick.bought.get()))?;
    write_count(out, "player", u64::from(pick.player.get()))?;
    write_count(out, "price", u64::from(pick.price.get()))?;
    write_count(out, "sell", u64::from(pick.sell.get()))?;
    out.end_object()
}

pub(crate) fn write_entry_gameweek(
    out: &mut Writer,
    shown: &ShownEntryGameweek,
) -> Result<(), AllocError>
    ensures { Appends result out.old out.new (tokens_of (entry_gameweek_data shown.now)) }
{
    let score = shown.score;
    out.begin_object()?;
    write_armband(out, score.armband)?;
    write_text(out, "chip", chip_word(shown.chip))?;
    write_count(out, "cost", u64::from(score.cost))?;
    out.key("eleven")?;
    write_slots(out, &score.eleven.slots)?;
    write_count(out, "factor", u64::from(factor_of(score.armband)))?;
    write_integer(out, "gross", score.gross)?;
    write_integer(out, "net", score.net)?;
    out.key("players")?;
    write_players(out, &shown.players)?;
    out.end_object()
}

/// The slot that wears the armband, or `null` where none does.
fn write_armband(out: &mut Writer, armband: Option<Armband>) -> Result<(), AllocError>
    ensures { Appends result out.old out.new
        (member_tokens (codes "armband") (count_or_null (armband_slot armband))) }
{
    match armband {
        Some(armband) => write_count(out, "armband", u64::from(armband.slot)),
        None => write_nothing(out, "armband"),
    }
}

fn factor_of(armband: Option<Armband>) -> u8
    ensures { result ≡ armband_factor armband }
{
    match armband {
        Some(armband) => armband.factor,
        None => 1,
    }
}

fn write_slots(out: &mut Writer, slots: &[u8]) -> Result<(), AllocError>
    ensures { Appends result out.old out.new (tokens_of (array (items_of (map count slots.now)))) }
{
    out.begin_array()?;
    for slot in slots {
        out.u64(u64::from(*slot))?;
    }
    out.end_array()
}

fn write_players(out: &mut Writer, players: &[PlayerId]) -> Result<(), AllocError>
    ensures { Appends result out.old out.new
        (tokens_of (array (items_of (map count players.now)))) }
{
    out.begin_array()?;
    for player in players {
        out.u64(u64::from(player.get()))?;
    }
    out.end_array()
}
