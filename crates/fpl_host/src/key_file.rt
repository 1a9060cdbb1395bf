// The operator's key from a file: a key among the words stands in the list of processes.
use crate::causes;
use crate::files::{Unread, front_of};
use fpl_base::{Memory, Text};
use local_requests::status::{MEMORY, SHELF};
use std::alloc::Global;
use std::str;

/// The option that names the file, in place of `--key`.
const OPTION: &str = "--key-file";

/// How many bytes of the file are read at least, where it has them. A key has 64 at most.
const LONGEST: usize = 4_096;

/// The words with `--key=K` in place of `--key-file PATH`, where K is the first line of that file; or the status with which
/// the program ends.
pub fn keyed(rt: &HostRuntime, alloc: Global, words: Vec<Text>) -> Result<Vec<Text>, u8> {
    let mut given = Vec::new(alloc);
    let mut waits = false;
    for word in words {
        let is_path = waits && !word.text().starts_with("-");
        if waits && !is_path && put(alloc, &mut given, OPTION).is_err() {
            return Err(MEMORY);
        }
        waits = word.text() == OPTION;
        if !waits {
            match read_word(rt, alloc, word, is_path) {
                Ok(word) => if given.push(word).is_err() {
                    return Err(MEMORY);
                },
                Err(status) => return Err(status),
            }
        }
    }
    if waits && put(alloc, &mut given, OPTION).is_err() {
        return Err(MEMORY);
    }
    Ok(given)
}

fn put(alloc: Global, words: &mut Vec<Text>, word: &str) -> Result<(), Memory> {
    let word = Text::new(alloc, word)?;
    words.push(word)?;
    Ok(())
}

// A word as it stands, or the key in its place where it is the path of its file, behind the option or in one word with it.
fn read_word(rt: &HostRuntime, alloc: Global, word: Text, is_path: bool) -> Result<Text, u8> {
    if is_path {
        return key_word(rt, alloc, word.text());
    }
    match word.text().strip_prefix("--key-file=") {
        Some(path) => key_word(rt, alloc, path),
        None => Ok(word),
    }
}

// The word that gives the key which stands in this file.
fn key_word(rt: &HostRuntime, alloc: Global, path: &str) -> Result<Text, u8> {
    match front_of(rt, alloc, path, LONGEST) {
        Ok(bytes) => match word_of(alloc, first_line(bytes.as_slice())) {
            Ok(word) => Ok(word),
            Err(Memory) => Err(MEMORY),
        },
        Err(Unread::Memory) => Err(MEMORY),
        Err(Unread::Failed(fault)) => {
            causes::tell(rt, "file", path, Some(&fault));
            Err(SHELF)
        }
    }
}

// The first line, without its end.
fn first_line(bytes: &[u8]) -> &[u8] {
    for (at, byte) in bytes.iter().enumerate() {
        if *byte == b'\n' || *byte == b'\r' {
            return bytes.get(..at).unwrap_or(bytes);
        }
    }
    bytes
}

// The word of a key. Where it is no text, it is empty, which no command takes.
fn word_of(alloc: Global, key: &[u8]) -> Result<Text, Memory> {
    let key = str::from_utf8(key).unwrap_or("");
    let word = format!(in alloc; "--key={key}")?;
    Text::new(alloc, word.as_str())
}
