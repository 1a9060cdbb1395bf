// Members of an answer, and objects of one or two numbers.
ghost use Rattle.std.specs.Prelude.{◌≡◌, codes};
ghost use Rattle.serde_json.specs.Data.{member, no_members, object};
ghost use Rattle.json_members.specs.Members.{count, count_or_null};
ghost use Rattle.json_members.specs.Tokens.{Appends, member_tokens, tokens_of};

use fpl_base::Gw;
use json::Writer;
use json_members::{write_count, write_nothing};
use std::alloc::AllocError;

/// A gameweek, or `null` where there is none.
pub(crate) fn write_gameweek(out: &mut Writer, gameweek: Option<Gw>) -> Result<(), AllocError>
    ensures { Appends result out.old out.new
        (member_tokens (codes "gameweek") (count_or_null gameweek)) }
{
    match gameweek {
        Some(gameweek) => write_count(out, "gameweek", u64::from(gameweek.get())),
        None => write_nothing(out, "gameweek"),
    }
}

/// An object of one number.
pub(crate) fn write_one(out: &mut Writer, name: &str, n: u64) -> Result<(), AllocError>
    ensures { Appends result out.old out.new
        (tokens_of (object (member name.now (count n) no_members))) }
{
    out.begin_object()?;
    write_count(out, name, n)?;
    out.end_object()
}

/// An object of two numbers.
pub(crate) fn write_two(
    out: &mut Writer,
    name: &str,
    n: u64,
    other: &str,
    m: u64,
) -> Result<(), AllocError>
    ensures { Appends result out.old out.new
        (tokens_of (object (member name.now (count n) (member other.now (count m) no_members)))) }
{
    out.begin_object()?;
    write_count(out, name, n)?;
    write_count(out, other, m)?;
    out.end_object()
}
