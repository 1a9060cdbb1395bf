// The head at the front of the bytes that wait, and what it tells of its message.
ghost use Rattle.std.specs.Prelude.{◌≡◌, ℕ, All, IfNone, IfSome, length, map};
ghost use Rattle.httparse.specs.Grammar.{RequestHead};
ghost use Rattle.httparse.specs.Spans.{IsHeaderWithin, IsRequestAt, IsRequestWithin, header_bytes};
ghost use Rattle.fpl_http.specs.Head.{IsNoHead, ReadsHead};
ghost use Rattle.fpl_http.specs.Lines.{strip};
ghost use Rattle.fpl_http.specs.Parts.{FieldsTell, HeadTells, Knows, Within};
ghost use Rattle.fpl_http.specs.Stream.{IsFront, Wanting};

use crate::fields::{closes_of, key_of};
use crate::length::body_length_of;
use crate::lines::{HeadEnd, find_head_end};
use httparse::Status;
use httparse::spans::{HeaderSpan, RequestSpans, Span, parse_request};

/// The most fields that a head may have.
pub const FIELDS: usize = 64;

/// Where the parts of a message stand, from its first byte on. The message ends with its body.
#[derive(Clone, Copy, Debug)]
pub struct Parts {
    pub method: Span,
    pub target: Span,
    pub key: Option<Span>,
    pub body: Span,
    pub closes: bool,
}

/// What a head tells: the status of a refusal, or the parts of its message.
#[derive(Clone, Copy, Debug)]
pub enum Judged {
    Unfit(u16),
    Fit(Parts),
}

/// What is known of the bytes that wait: that no head ends in the first so many; the parts of a
/// message whose body may not have come yet; or the status of a refusal.
#[derive(Clone, Copy, Debug)]
pub enum Known {
    Searched(usize),
    Awaits(Parts),
    Refused(u16),
}

/// The head at the front, with room for 64 fields.
fn read_head(buf: &[u8], spans: &mut [HeaderSpan]) -> Option<RequestSpans>
    requires { length spans.old ≡ 64 }
    ensures found { IfSome result (λ r. (h : RequestHead)
        × ReadsHead buf.now h × IsRequestAt buf.now spans.new r h) }
    ensures within { IfSome result (λ r. IsRequestWithin buf.now spans.new r) }
    ensures none { IfNone result (IsNoHead buf.now) }
{
    match parse_request(buf, spans) {
        Ok(Status::Complete(head)) => Some(head),
        _ => None,
    }
}

/// The parts of a message, by the fields of its head.
fn judge_fields(
    head: &[u8],
    headers: &[HeaderSpan],
    minor: u8,
    method: Span,
    target: Span,
) -> Judged
    requires fields { All (IsHeaderWithin (length head.now)) headers.now }
    requires method { Within (length head.now) method }
    ensures { FieldsTell head.now (map (header_bytes head.now) headers.now) minor method target
        result }
{
    match body_length_of(head, headers, method.of(head)) {
        Err(status) => Judged::Unfit(status),
        Ok(length) => Judged::Fit(Parts {
            method,
            target,
            key: key_of(head, headers),
            body: Span {
                start: head.len(),
                end: head.len() + length as usize,
            },
            closes: closes_of(head, headers, minor),
        }),
    }
}

/// What a head tells. The spans are a place to work in.
fn judge_head(head: &[u8], spans: &mut [HeaderSpan; FIELDS]) -> Judged
    ensures { HeadTells head.now result }
{
    match read_head(head, spans) {
        None => Judged::Unfit(400),
        Some(found) => judge_fields(
            head,
            &spans[..found.headers],
            found.version,
            found.method,
            found.path,
        ),
    }
}

/// Goes on with the search for the head's end.
fn seek_head(waits: &[u8], searched: usize, spans: &mut [HeaderSpan; FIELDS]) -> Known
    requires stripped { strip waits.now ≡ waits.now }
    requires knows { Knows waits.now (Known.Searched searched) }
    ensures knows { Knows waits.now result }
    ensures wanting { (n : ℕ) → result ≡ Known.Searched n → IsFront waits.now Wanting }
{
    match find_head_end(waits, searched) {
        HeadEnd::Missing => Known::Searched(waits.len()),
        HeadEnd::TooLarge => Known::Refused(431),
        HeadEnd::At(size) => match judge_head(&waits[..size], spans) {
            Judged::Unfit(status) => Known::Refused(status),
            Judged::Fit(parts) => Known::Awaits(parts),
        },
    }
}

/// Looks at the bytes that wait, from what was known of those that came before. The spans are a place to work in.
pub fn look(waits: &[u8], known: &mut Known, spans: &mut [HeaderSpan; FIELDS])
    requires stripped { strip waits.now ≡ waits.now }
    requires knows { Knows waits.now known.old }
    ensures knows { Knows waits.now known.new }
    ensures wanting { (n : ℕ) → known.new ≡ Known.Searched n → IsFront waits.now Wanting }
{
    if let Known::Searched(searched) = known {
        *known = seek_head(waits, *searched, spans);
    }
}
