// The fields of a head: how often a name stands there, and with which values.
ghost use Rattle.std.specs.Prelude.{◌≡◌, ◌∷◌, ◌++◌, ◌&&◌, [], ℕ, List, All, length, map, option_map};
ghost use Rattle.std.specs.List.{list_any};
ghost use Rattle.std.specs.Option.{ForSome};
ghost use Rattle.httparse.specs.Spans.{IsHeaderWithin, IsWithin, header_bytes, span_bytes};
ghost use Rattle.fpl_http.specs.Fields.{values_of, same_name, Shows, SoughtWithin};
ghost use Rattle.fpl_http.specs.Stream.{key_in, closes_in};
ghost use Rattle.fpl_http.specs.Parts.{bytes_at, Within};

use httparse::spans::{HeaderSpan, Span};

/// How often a field stands in a head.
#[derive(Clone, Copy, Debug, PartialEq, Eq)]
pub enum Sought {
    Absent,
    Once(Span),
    Twice,
}

fn one_more(seen: Sought, value: Span) -> Sought
    ensures shows { (buf : List ℕ) (vs : List (List ℕ)) → Shows buf seen vs
        → Shows buf result (vs ++ span_bytes buf value ∷ []) }
    ensures within { (n : ℕ) → IsWithin n value → SoughtWithin n result }
{
    match seen {
        Sought::Absent => Sought::Once(value),
        Sought::Once(_) => Sought::Twice,
        Sought::Twice => Sought::Twice,
    }
}

fn is_named(name: &[u8], wanted: &[u8]) -> bool
    ensures { result ≡ same_name name.now wanted.now }
{
    name.eq_ignore_ascii_case(wanted)
}

/// The values of a field.
pub fn seek_field(buf: &[u8], headers: &[HeaderSpan], name: &[u8]) -> Sought
    requires { All (IsHeaderWithin (length buf.now)) headers.now }
    ensures shows { Shows buf.now result
        (values_of name.now (map (header_bytes buf.now) headers.now)) }
    ensures within { SoughtWithin (length buf.now) result }
{
    let mut seen = Sought::Absent;
    for header in headers {
        if is_named(header.name.of(buf), name) {
            seen = one_more(seen, header.value);
        }
    }
    seen
}

/// Whether a header has this name and this value, without regard to case.
fn says(buf: &[u8], header: &HeaderSpan, name: &[u8], text: &[u8]) -> bool
    requires { IsHeaderWithin (length buf.now) header.now }
    ensures { result ≡ (same_name (header_bytes buf.now header.now).0 name.now
        && same_name (header_bytes buf.now header.now).1 text.now) }
{
    is_named(header.name.of(buf), name) && is_named(header.value.of(buf), text)
}

/// Whether some value of a field is a text, without regard to case.
fn has_value(buf: &[u8], headers: &[HeaderSpan], name: &[u8], text: &[u8]) -> bool
    requires { All (IsHeaderWithin (length buf.now)) headers.now }
    ensures { result ≡ list_any (λ v. same_name v text.now)
        (values_of name.now (map (header_bytes buf.now) headers.now)) }
{
    for header in headers {
        if says(buf, header, name, text) {
            return true;
        }
    }
    false
}

/// The value of the one `Fpl-Key` field.
pub fn key_of(buf: &[u8], headers: &[HeaderSpan]) -> Option<Span>
    requires { All (IsHeaderWithin (length buf.now)) headers.now }
    ensures value { option_map (bytes_at buf.now) result
        ≡ key_in (map (header_bytes buf.now) headers.now) }
    ensures within { ForSome result (Within (length buf.now)) }
{
    match seek_field(buf, headers, b"fpl-key") {
        Sought::Absent => None,
        Sought::Once(span) => Some(span),
        Sought::Twice => None,
    }
}

/// Whether a message closes, from its version and its `Connection` fields.
pub fn closes_of(buf: &[u8], headers: &[HeaderSpan], minor: u8) -> bool
    requires { All (IsHeaderWithin (length buf.now)) headers.now }
    ensures { result ≡ closes_in minor (map (header_bytes buf.now) headers.now) }
{
    minor == 0 || has_value(buf, headers, b"connection", b"close")
}
