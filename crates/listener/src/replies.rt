// What is answered to a message whose target names a page.
ghost use Rattle.std.specs.Prelude.{◌≡◌, ◌++◌, IfOk, IsSome, OnErr, codes, option_map, string_bytes};
ghost use Rattle.fpl_http.specs.Responses.{closing_line, response_text};
ghost use Rattle.fpl_http.specs.Seen.{request_seen};
ghost use Rattle.listener.specs.Replies.{answered, guarding_fields, method_text, page_answer, page_head, page_text};

use crate::pages::{Page, Pages};
use fpl_base::Memory;
use fpl_http::{Message, append_response};
use std::alloc::{AllocError, Global};

// What a browser is told of every page.
fn guarding_fields() -> &'static str
    ensures { result.now ≡ guarding_fields }
{
    "Cache-Control: no-cache\r\nX-Content-Type-Options: nosniff\r\nContent-Security-Policy: default-src 'self'; frame-ancestors 'none'; base-uri 'none'; form-action 'self'\r\n"
}

const METHOD: &[u8] = b"{\"error\":\"method\"}";

impl Pages {
    /// The bytes that answer a message, where its target names a page: the page with its type, or 405 where the method is
    /// another than GET. Each other message is none of theirs.
    pub fn answer(&self, alloc: Global, message: &Message<'_>) -> Result<Option<Vec<u8>>, Memory>
        ensures answer { IfOk result (λ text. option_map (λ t. t.items) text
            ≡ page_answer self.now (request_seen message.now)) }
        ensures out { OnErr result (IsSome (page_answer self.now (request_seen message.now))) }
    {
        match self.at(message.target) {
            Some(page) => Ok(Some(answered(alloc, page, message)?)),
            None => Ok(None),
        }
    }
}

fn answered(alloc: Global, page: &Page, message: &Message<'_>) -> Result<Vec<u8>, Memory>
    ensures { IfOk result (λ text. text.items ≡ answered page.now (request_seen message.now)) }
{
    if message.method == b"GET".as_slice() {
        shown(alloc, page, message.closes)
    } else {
        refused(alloc, message.closes)
    }
}

fn shown(alloc: Global, page: &Page, closing: bool) -> Result<Vec<u8>, Memory>
    ensures { IfOk result (λ text. text.items ≡ page_text page.now closing) }
{
    let head = head_of(alloc, page, closing)?;
    let mut text = Vec::from_slice(alloc, head.as_bytes())?;
    text.extend_from_slice(page.bytes.as_slice())?;
    Ok(text)
}

fn head_of(alloc: Global, page: &Page, closing: bool) -> Result<String, AllocError>
    ensures { IfOk result (λ text. string_bytes text ≡ page_head page.now closing) }
{
    let kind = page.kind.media_type();
    let size = page.bytes.as_slice().len();
    let guards = guarding_fields();
    let end = end_of_head(closing);
    format!(in alloc;
        "HTTP/1.1 200 OK\r\nContent-Type: {kind}\r\nContent-Length: {size}\r\n{guards}{end}"
    )
}

// What stands behind the fields of every page.
fn end_of_head(closing: bool) -> &'static str
    ensures { result.now ≡ closing_line closing ++ codes "\r\n" }
{
    if closing {
        "Connection: close\r\n\r\n"
    } else {
        "\r\n"
    }
}

fn refused(alloc: Global, closing: bool) -> Result<Vec<u8>, Memory>
    ensures { IfOk result (λ text. text.items ≡ response_text 405 method_text closing) }
{
    let mut text = Vec::new(alloc);
    append_response(&mut text, 405, METHOD, closing)?;
    Ok(text)
}
