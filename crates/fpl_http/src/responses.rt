// What goes back for a message, and its bytes.
ghost use Rattle.std.specs.Prelude.{◌≡◌, ◌≤◌, ◌+◌, ◌++◌, codes, length, IsOk, IsTrue, OnErr, OnOk};
ghost use Rattle.std.specs.Vec.{vec_capacity, vec_len};
ghost use Rattle.fpl_http.specs.Responses.{is_answer_status, phrase, closing_line, head_text, response_text, memory_text};

use fpl_base::Memory;
use http::StatusCode;
use itoa::Buffer;

/// What goes back for a message: the status of the response, and its body.
#[derive(Debug, Drop)]
pub struct Reply {
    pub status: u16,
    pub body: Vec<u8>,
}

/// The phrase of a status.
fn phrase_of(status: u16) -> &'static str
    requires { IsTrue (is_answer_status status) }
    ensures { result.now ≡ phrase status }
{
    match StatusCode::from_u16(status) {
        Ok(code) => code.canonical_reason().unwrap_or(""),
        Err(_) => "",
    }
}

const FIELDS: &[u8] = b"\r\nContent-Type: application/json\r\nContent-Length: ";

/// What stands between the length of the body and the body.
fn end_of_head(closing: bool) -> &'static [u8]
    ensures end { result.now ≡ codes "\r\n" ++ (closing_line closing ++ codes "\r\n") }
    ensures short { length result.now ≤ 23 }
{
    if closing {
        b"\r\nConnection: close\r\n\r\n"
    } else {
        b"\r\n\r\n"
    }
}

/// Appends a text for which there is room.
fn put(out: &mut Vec<u8>, text: &[u8])
    requires room { vec_len out.old + length text.now ≤ vec_capacity out.old }
    ensures items { out.new.items ≡ out.old.items ++ text.now }
    ensures len { vec_len out.new ≡ vec_len out.old + length text.now }
    ensures capacity { vec_capacity out.old ≤ vec_capacity out.new }
{
    let _ = out.extend_from_slice(text);
}

/// Appends the phrase of a status, for which there is room.
fn put_phrase(out: &mut Vec<u8>, status: u16)
    requires status { IsTrue (is_answer_status status) }
    requires room { vec_len out.old + 31 ≤ vec_capacity out.old }
    ensures items { out.new.items ≡ out.old.items ++ phrase status }
    ensures len { vec_len out.new ≤ vec_len out.old + 31 }
    ensures capacity { vec_capacity out.old ≤ vec_capacity out.new }
{
    put(out, phrase_of(status).as_bytes());
}

/// Room for the longest head.
const HEAD_ROOM: usize = 160;

/// Appends the head of a response whose body has this length, for which there is room.
fn put_head(out: &mut Vec<u8>, status: u16, size: usize, closing: bool)
    requires status { IsTrue (is_answer_status status) }
    requires room { vec_len out.old + 160 ≤ vec_capacity out.old }
    ensures items { out.new.items ≡ out.old.items ++ head_text status size closing }
    ensures len { vec_len out.new ≤ vec_len out.old + 160 }
    ensures capacity { vec_capacity out.old ≤ vec_capacity out.new }
{
    put(out, b"HTTP/1.1 ");
    put(out, Buffer::new().format(status).as_bytes());
    put(out, b" ");
    put_phrase(out, status);
    put(out, FIELDS);
    put(out, Buffer::new().format(size).as_bytes());
    put(out, end_of_head(closing));
}

/// Appends the bytes of a response. `closing` says that the session ends after it. Where there is no memory for all of
/// it, nothing is appended, and none is wanted where it fits behind what is there.
pub fn append_response(
    out: &mut Vec<u8>,
    status: u16,
    body: &[u8],
    closing: bool,
) -> Result<(), Memory>
    requires { IsTrue (is_answer_status status) }
    ensures ok { OnOk result
        (out.new.items ≡ out.old.items ++ response_text status body.now closing) }
    ensures err { OnErr result (out.new.items ≡ out.old.items) }
    ensures fits { vec_len out.old + (length body.now + 160) ≤ vec_capacity out.old → IsOk result }
    ensures capacity { vec_capacity out.old ≤ vec_capacity out.new }
{
    let room = body.len().checked_add(HEAD_ROOM).ok_or(Memory)?;
    out.reserve(room)?;
    put_head(out, status, body.len(), closing);
    put(out, body);
    Ok(())
}

const MEMORY: &[u8] =
    b"HTTP/1.1 507 Insufficient Storage\r\nContent-Type: application/json\r\nContent-Length: 18\r\n\r\n{\"error\":\"memory\"}";

const MEMORY_CLOSING: &[u8] =
    b"HTTP/1.1 507 Insufficient Storage\r\nContent-Type: application/json\r\nContent-Length: 18\r\nConnection: close\r\n\r\n{\"error\":\"memory\"}";

/// The response where memory is wanting, which takes none.
pub fn memory_response(closing: bool) -> &'static [u8]
    ensures text { result.now ≡ response_text 507 memory_text closing }
    ensures short { length result.now ≤ 128 }
{
    if closing { MEMORY_CLOSING } else { MEMORY }
}
