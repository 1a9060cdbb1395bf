// The length of a message's body, or the refusal of the message.
ghost use Rattle.std.specs.Prelude.{◌≡◌, ◌≤◌, All, length, map, codes, true};
ghost use Rattle.std.specs.Char.{is_ascii_digit};
ghost use Rattle.std.specs.List.{list_all};
ghost use Rattle.std.specs.Str.{bytes_eq};
ghost use Rattle.std.specs.Str.Parse.{digits_value};
ghost use Rattle.httparse.specs.Spans.{IsHeaderWithin, header_bytes};
ghost use Rattle.fpl_http.specs.Fields.{values_of};
ghost use Rattle.fpl_http.specs.Stream.{digits_told, length_by, length_told, length_judged, length_in};

use crate::fields::{Sought, seek_field};
use httparse::spans::HeaderSpan;

/// The most bytes that a body may have.
pub const BODY_BYTES: u64 = 262144;

fn all_digits(bytes: &[u8]) -> bool
    ensures { result ≡ list_all is_ascii_digit bytes.now }
{
    bytes.iter().all(|b| b.is_ascii_digit())
}

/// The number that at most 10 digits write.
fn number_of(bytes: &[u8]) -> u64
    requires short { length bytes.now ≤ 10 }
    requires digits { list_all is_ascii_digit bytes.now ≡ true }
    ensures { result ≡ digits_value 10 bytes.now }
{
    let mut number: u64 = 0;
    for byte in bytes {
        number = number * 10 + (*byte - b'0') as u64;
    }
    number
}

/// The number that 1 to 10 digits write.
fn digits(bytes: &[u8]) -> Option<u64>
    ensures { result ≡ digits_told bytes.now }
{
    if !bytes.is_empty() && bytes.len() <= 10 && all_digits(bytes) {
        Some(number_of(bytes))
    } else {
        None
    }
}

fn is_post(method: &[u8]) -> bool
    ensures { result ≡ bytes_eq method.now (codes "POST") }
{
    method == b"POST".as_slice()
}

fn length_from(told: Option<u64>) -> Result<Option<u64>, u16>
    ensures { result ≡ length_by told }
{
    match told {
        Some(number) => Ok(Some(number)),
        None => Err(400),
    }
}

/// The length that `Content-Length` tells.
fn told_length(buf: &[u8], headers: &[HeaderSpan]) -> Result<Option<u64>, u16>
    requires { All (IsHeaderWithin (length buf.now)) headers.now }
    ensures { result ≡ length_told
        (values_of (codes "content-length") (map (header_bytes buf.now) headers.now)) }
{
    match seek_field(buf, headers, b"content-length") {
        Sought::Absent => Ok(None),
        Sought::Once(span) => length_from(digits(span.of(buf))),
        Sought::Twice => Err(400),
    }
}

fn judge_length(told: Result<Option<u64>, u16>, method: &[u8]) -> Result<u64, u16>
    ensures { result ≡ length_judged method.now told }
{
    match told {
        Err(status) => Err(status),
        Ok(None) => if is_post(method) { Err(411) } else { Ok(0) },
        Ok(Some(number)) => if number > BODY_BYTES {
            Err(413)
        } else {
            Ok(number)
        },
    }
}

/// The length of the body, or the refusal of the message.
pub fn body_length_of(buf: &[u8], headers: &[HeaderSpan], method: &[u8]) -> Result<u64, u16>
    requires { All (IsHeaderWithin (length buf.now)) headers.now }
    ensures { result ≡ length_in (map (header_bytes buf.now) headers.now) method.now }
{
    match seek_field(buf, headers, b"transfer-encoding") {
        Sought::Absent => judge_length(told_length(buf, headers), method),
        Sought::Once(_) => Err(501),
        Sought::Twice => Err(501),
    }
}
