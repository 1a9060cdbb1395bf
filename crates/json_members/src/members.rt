// Members of an object, written one at a time. What is inlined tests no constant name for escapes when it runs.
ghost use Rattle.std.specs.Prelude.{◌≡◌};
ghost use Rattle.std.specs.Option.{option_copied};
ghost use Rattle.serde_json.specs.Data.{boolean, null, string};
ghost use Rattle.json_members.specs.Members.{count, count_or_null, integer, integer_or_null, no_list, text_or_null};
ghost use Rattle.json_members.specs.Tokens.{Appends, member_tokens};

use fpl_base::{Code, Name};
use json::Writer;
use std::alloc::AllocError;
use std::str;

/// A whole number from 0.
#[inline(always)]
pub fn write_count(out: &mut Writer, name: &str, n: u64) -> Result<(), AllocError>
    ensures { Appends result out.old out.new (member_tokens name.now (count n)) }
{
    out.key(name)?;
    out.u64(n)
}

/// A whole number from 0, or `null`.
#[inline(always)]
pub fn write_count_or_null(out: &mut Writer, name: &str, n: Option<u64>) -> Result<(), AllocError>
    ensures { Appends result out.old out.new (member_tokens name.now (count_or_null n)) }
{
    match n {
        Some(n) => write_count(out, name, n),
        None => write_nothing(out, name),
    }
}

/// A whole number.
#[inline(always)]
pub fn write_integer(out: &mut Writer, name: &str, n: i32) -> Result<(), AllocError>
    ensures { Appends result out.old out.new (member_tokens name.now (integer n)) }
{
    out.key(name)?;
    out.i64(i64::from(n))
}

/// A whole number, or `null`.
#[inline(always)]
pub fn write_integer_or_null(out: &mut Writer, name: &str, n: Option<i32>) -> Result<(), AllocError>
    ensures { Appends result out.old out.new (member_tokens name.now (integer_or_null n)) }
{
    match n {
        Some(n) => write_integer(out, name, n),
        None => write_nothing(out, name),
    }
}

/// Whether something is so.
#[inline(always)]
pub fn write_truth(out: &mut Writer, name: &str, truth: bool) -> Result<(), AllocError>
    ensures { Appends result out.old out.new (member_tokens name.now (boolean truth)) }
{
    out.key(name)?;
    out.boolean(truth)
}

/// Text.
#[inline(always)]
pub fn write_text(out: &mut Writer, name: &str, text: &str) -> Result<(), AllocError>
    ensures { Appends result out.old out.new (member_tokens name.now (string text.now)) }
{
    out.key(name)?;
    out.string(text)
}

/// A name, or `null`.
pub fn write_text_or_null(
    out: &mut Writer,
    name: &str,
    text: Option<&Name>,
) -> Result<(), AllocError>
    ensures { Appends result out.old out.new
        (member_tokens name.now (text_or_null (option_copied text.entry))) }
{
    match text {
        Some(text) => write_text(out, name, text_of(text)),
        None => write_nothing(out, name),
    }
}

/// `null`, where there is nothing.
#[inline(always)]
pub fn write_nothing(out: &mut Writer, name: &str) -> Result<(), AllocError>
    ensures { Appends result out.old out.new (member_tokens name.now null) }
{
    out.key(name)?;
    out.null()
}

/// A list of nothing.
#[inline(always)]
pub fn write_no_list(out: &mut Writer, name: &str) -> Result<(), AllocError>
    ensures { Appends result out.old out.new (member_tokens name.now no_list) }
{
    out.key(name)?;
    out.begin_array()?;
    out.end_array()
}

/// A name as text, which it always is.
pub fn text_of(name: &Name) -> &str
    ensures { result.now ≡ name.now }
{
    match str::from_utf8(name.bytes()) {
        Ok(text) => text,
        Err(_) => unreachable!(),
    }
}

/// A league's code as text, which it always is.
pub fn code_text(code: &Code) -> &str
    ensures { result.now ≡ code.now }
{
    match str::from_utf8(code.bytes()) {
        Ok(text) => text,
        Err(_) => unreachable!(),
    }
}
