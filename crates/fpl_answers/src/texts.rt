// Bodies of answers to what no host was asked.
#![tactic(auto, unfolding(serde_json::proofs::OnLiterals::serde_json_on_literals))]

ghost use Rattle.std.specs.Prelude.{◌≡◌, IfOk, codes};
ghost use Rattle.serde_json.specs.Written.{compact_text};
ghost use Rattle.fpl_answers.specs.MemberData.{error_data, malformed_data};
ghost use Rattle.json_members.specs.Tokens.{Appends, tokens_of};

use fpl_base::Memory;
use json::Writer;
use json_members::write_text;
use std::alloc::{AllocError, Global};

/// The body of 400 for a request whose body is wrong at this field, which is `body` where it is no JSON object.
pub fn malformed_text(alloc: Global, field: &str) -> Result<Vec<u8>, Memory>
    ensures { IfOk result (λ text. text.items ≡ compact_text (malformed_data field.now)) }
{
    let mut out = Writer::new(Vec::with_capacity(alloc, 64)?);
    write_malformed(&mut out, field)?;
    Ok(out.into_inner())
}

fn write_malformed(out: &mut Writer, field: &str) -> Result<(), AllocError>
    ensures { Appends result out.old out.new (tokens_of (malformed_data field.now)) }
{
    out.begin_object()?;
    write_text(out, "error", "malformed")?;
    write_text(out, "field", field)?;
    out.end_object()
}

/// The body of 401: no caller has the key.
pub fn key_text() -> &'static [u8]
    ensures { result.now ≡ compact_text (error_data (codes "key")) }
{
    br#"{"error":"key"}"#
}

/// The body of 403: the request is not for this caller.
pub fn caller_text() -> &'static [u8]
    ensures { result.now ≡ compact_text (error_data (codes "caller")) }
{
    br#"{"error":"caller"}"#
}

/// The body of 404: no route has this target.
pub fn unknown_text() -> &'static [u8]
    ensures { result.now ≡ compact_text (error_data (codes "unknown")) }
{
    br#"{"error":"unknown"}"#
}

/// The body of 405: the target has a route, but none of this method.
pub fn method_text() -> &'static [u8]
    ensures { result.now ≡ compact_text (error_data (codes "method")) }
{
    br#"{"error":"method"}"#
}
