// Answers: the status and the body of each.
ghost use Rattle.std.specs.Prelude.{◌≡◌, ◌++◌, [], IfOk};
ghost use Rattle.fpl_answers.specs.Answers.{body_of, damaged_data, done_data, done_status, status_of};
ghost use Rattle.fpl_answers.specs.MemberData.{error_data};
ghost use Rattle.json_members.specs.Tokens.{Appends, tokens_of};

use crate::members::{write_one, write_two};
use crate::rules::write_rule;
use crate::views::{room_of, shown_text};
use fpl_base::{Memory, RecordKey};
use fpl_http::Reply;
use json::Writer;
use json_members::{write_count, write_text};
use season_book::{Answer, Made};
use std::alloc::{AllocError, Global};

/// The reply that tells an answer. Its only error is want of memory.
pub fn answer_text(alloc: Global, answer: &Answer) -> Result<Reply, Memory>
    ensures status { IfOk result (λ reply. reply.status ≡ status_of answer.now) }
    ensures body { IfOk result (λ reply. reply.body.items ≡ body_of answer.now) }
{
    let status = status_of(answer);
    let out = Writer::new(Vec::with_capacity(alloc, room_for(answer))?);
    let body = body_text(out, answer)?;
    Ok(Reply { status, body })
}

fn status_of(answer: &Answer) -> u16
    ensures { result ≡ status_of answer.now }
{
    match answer {
        Answer::Done { made, .. } => status_of_done(*made),
        Answer::Shown(_) => 200,
        Answer::Rule(_) => 409,
        Answer::Unknown => 404,
        Answer::Keeper => 503,
        Answer::Damaged(_) => 500,
        Answer::Memory => 507,
    }
}

fn status_of_done(made: Made) -> u16
    ensures { result ≡ done_status made }
{
    match made {
        Made::Nothing => 200,
        Made::Entry(_) => 201,
        Made::League(_) => 201,
        Made::Cup(_) => 201,
    }
}

// About how many bytes the body takes, so that it is not copied while it grows.
fn room_for(answer: &Answer) -> usize {
    match answer {
        Answer::Shown(shown) => room_of(shown),
        _ => 128,
    }
}

// The body of an answer, behind what the writer's buffer held.
fn body_text(mut out: Writer, answer: &Answer) -> Result<Vec<u8>, AllocError>
    requires { out.tokens ≡ [] }
    ensures { IfOk result (λ text. text.items ≡ out.before ++ body_of answer.now) }
{
    match answer {
        Answer::Shown(shown) => return shown_text(out, shown),
        Answer::Done { number, made } => write_done(&mut out, *number, *made)?,
        Answer::Rule(rule) => write_rule(&mut out, rule)?,
        Answer::Unknown => write_error(&mut out, "unknown")?,
        Answer::Keeper => write_error(&mut out, "keeper")?,
        Answer::Damaged(key) => write_damaged(&mut out, *key)?,
        Answer::Memory => write_error(&mut out, "memory")?,
    }
    Ok(out.into_inner())
}

fn write_done(out: &mut Writer, number: u64, made: Made) -> Result<(), AllocError>
    ensures { Appends result out.old out.new (tokens_of (done_data number made)) }
{
    match made {
        Made::Nothing => write_one(out, "done", number),
        Made::Entry(entry) => write_two(out, "done", number, "entry", u64::from(entry.get())),
        Made::League(league) => write_two(out, "done", number, "league", u64::from(league.get())),
        Made::Cup(cup) => write_two(out, "cup", u64::from(cup.get()), "done", number),
    }
}

fn write_error(out: &mut Writer, word: &str) -> Result<(), AllocError>
    ensures { Appends result out.old out.new (tokens_of (error_data word.now)) }
{
    out.begin_object()?;
    write_text(out, "error", word)?;
    out.end_object()
}

fn write_damaged(out: &mut Writer, key: RecordKey) -> Result<(), AllocError>
    ensures { Appends result out.old out.new (tokens_of (damaged_data key)) }
{
    out.begin_object()?;
    write_count(out, "a", u64::from(key.a))?;
    write_count(out, "b", u64::from(key.b))?;
    write_count(out, "c", u64::from(key.c))?;
    write_text(out, "error", "damaged")?;
    write_count(out, "kind", u64::from(key.kind))?;
    out.end_object()
}
