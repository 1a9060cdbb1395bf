// Moments as text, in windows.
ghost use Rattle.std.specs.Prelude.{◌≡◌, IsAscii};
ghost use Rattle.serde_json.specs.Data.{string};
ghost use Rattle.json_members.specs.Tokens.{Appends, member_tokens};
ghost use Rattle.season_book.specs.MomentText.{moment_text};

use fpl_base::Moment;
use json::Writer;
use json_members::write_text;
use season_calendar::instant_text;
use std::alloc::AllocError;
use std::str;

/// A moment, as `YYYY-MM-DDTHH:MM:SSZ`.
pub fn write_moment(out: &mut Writer, name: &str, moment: Moment) -> Result<(), AllocError>
    ensures { Appends result out.old out.new
        (member_tokens name.now (string (moment_text moment))) }
{
    let text = text_of(moment);
    write_text(out, name, ascii(&text))
}

// The text of a moment, which is ASCII.
fn text_of(moment: Moment) -> [u8; 20]
    ensures value { result ≡ moment_text moment }
    ensures ascii { IsAscii result }
{
    instant_text(moment)
}

// ASCII bytes as text.
fn ascii(bytes: &[u8; 20]) -> &str
    requires { IsAscii bytes.now }
    ensures { result.now ≡ bytes.now }
{
    match str::from_utf8(bytes) {
        Ok(text) => text,
        Err(_) => unreachable!(),
    }
}
