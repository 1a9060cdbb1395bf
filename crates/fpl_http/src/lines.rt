// The lines of a stream: the empty ones in front of a message, and where a head ends.
ghost use Rattle.std.specs.Prelude.{◌≡◌, ◌≤◌, ◌+◌, length, drop, take, None, IfNone, IfSome};
ghost use Rattle.fpl_http.specs.Lines.{empty_line, head_len, head_len_behind, strip, line_count, head_end, EndWithin};

use memchr::memchr;

/// The most bytes that a head may have.
pub const HEAD_BYTES: usize = 8192;

/// The most lines that a head may have, its first and its empty one included.
const HEAD_LINES: usize = 66;

/// The length of the empty line at the front.
fn blank_length(bytes: &[u8]) -> Option<usize>
    ensures value { result ≡ empty_line bytes.now }
    ensures within { IfSome result (λ n. (1 ≤ n) × (n ≤ length bytes.now)) }
{
    match bytes {
        [b'\n', ..] => Some(1),
        [b'\r', b'\n', ..] => Some(2),
        _ => None,
    }
}

/// How many bytes of empty lines stand at the front.
pub fn blank_lines_length(bytes: &[u8]) -> usize
    ensures value { drop result bytes.now ≡ strip bytes.now }
    ensures within { result ≤ length bytes.now }
{
    let mut at = 0;
    while let Some(n) = blank_length(&bytes[at..]) {
        at += n;
    }
    at
}

/// The length of the first line, with its LF.
fn line_length(bytes: &[u8]) -> Option<usize>
    ensures ends { IfSome result (λ n. head_len bytes.now ≡ head_len_behind n bytes.now) }
    ensures counted { IfSome result
        (λ n. line_count bytes.now ≡ 1 + line_count (drop n bytes.now)) }
    ensures within { IfSome result (λ n. (1 ≤ n) × (n ≤ length bytes.now)) }
    ensures none { IfNone result ((head_len bytes.now ≡ None) × (line_count bytes.now ≡ 0)) }
{
    match memchr(b'\n', bytes) {
        Some(place) => Some(place + 1),
        None => None,
    }
}

/// The length of the head at the front, if it ends there. Nothing ends in the bytes that were searched
/// before, so those are passed over, but for the two that may belong to an ending.
pub fn head_length(bytes: &[u8], searched: usize) -> Option<usize>
    requires within { searched ≤ length bytes.now }
    requires none { head_len (take searched bytes.now) ≡ None }
    ensures value { result ≡ head_len bytes.now }
    ensures within { IfSome result (λ n. n ≤ length bytes.now) }
{
    let mut at = searched.saturating_sub(2);
    while let Some(line) = line_length(&bytes[at..]) {
        at += line;
        if let Some(n) = blank_length(&bytes[at..]) {
            return Some(at + n);
        }
    }
    None
}

/// How many lines end in these bytes.
fn count_lines(bytes: &[u8]) -> usize
    ensures { result ≡ line_count bytes.now }
{
    let mut count = 0;
    let mut at = 0;
    while let Some(line) = line_length(&bytes[at..]) {
        at += line;
        count += 1;
    }
    count
}

/// Where the head at the front ends.
#[derive(Clone, Copy, Debug)]
pub enum HeadEnd {
    Missing,
    TooLarge,
    At(usize),
}

/// Where the head at the front ends, if it is small enough. Nothing ends in the bytes that were
/// searched before.
pub fn find_head_end(bytes: &[u8], searched: usize) -> HeadEnd
    requires within { searched ≤ length bytes.now }
    requires small { searched ≤ HEAD_BYTES }
    requires none { head_len (take searched bytes.now) ≡ None }
    ensures value { result ≡ head_end bytes.now }
    ensures within { EndWithin (length bytes.now) result }
{
    let front = &bytes[..bytes.len().min(HEAD_BYTES)];
    match head_length(front, searched) {
        None => if bytes.len() >= HEAD_BYTES {
            HeadEnd::TooLarge
        } else {
            HeadEnd::Missing
        },
        Some(size) => if count_lines(&front[..size]) > HEAD_LINES {
            HeadEnd::TooLarge
        } else {
            HeadEnd::At(size)
        },
    }
}
