//! A decoder that is fed a stream in pieces of one size; with the size 0 nothing is fed.
use fpl_base::Memory;
use fpl_http::{Decoder, Next};
use std::alloc::Global;

/// How many messages a stream in such pieces has.
pub fn told_of(alloc: Global, stream: &[u8], size: u32) -> Option<u64> {
    match count_stream(alloc, stream, size as usize) {
        Ok(count) => Some(count),
        Err(Memory) => None,
    }
}

// Takes each message that stands whole, and counts them.
fn count_messages(decoder: &mut Decoder) -> u64 {
    let mut count: u64 = 0;
    while decoder.next() == Next::Message {
        count = count.saturating_add(1);
    }
    count
}

// Feeds a piece, and counts the messages.
fn count_piece(decoder: &mut Decoder, piece: &[u8]) -> u64 {
    let mut count: u64 = 0;
    let mut rest = piece;
    while !rest.is_empty() {
        let taken = decoder.feed(rest);
        if taken == 0 {
            break;
        }
        rest = &rest[taken..];
        count = count.saturating_add(count_messages(decoder));
    }
    count
}

fn count_stream(alloc: Global, stream: &[u8], size: usize) -> Result<u64, Memory> {
    let mut decoder = Decoder::new(alloc)?;
    let mut count: u64 = 0;
    if size > 0 {
        for piece in stream.chunks(size) {
            count = count.saturating_add(count_piece(&mut decoder, piece));
        }
    }
    Ok(count)
}
