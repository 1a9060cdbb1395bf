// Names, keys and ids of a made-up season.
ghost use Rattle.std.specs.Prelude.{◌≡◌, ◌++◌, ◌<◌, IfOk, codes, decimal};
ghost use Rattle.season_generator.specs.Made.{digit, key_text};

use fpl_base::{Code, Key, Memory, Name};
use std::alloc::Global;

// A letter and a number, which are always a name.
pub(crate) fn name_of(alloc: Global, letter: &str, number: u32) -> Result<Name, Memory>
    ensures { IfOk result (λ name. name ≡ letter.now ++ decimal number) }
{
    let text = format!(in alloc; "{letter}{number}")?;
    match Name::new(alloc, text.as_bytes())? {
        Some(name) => Ok(name),
        None => Err(Memory),
    }
}

// `entrykey` and the entry in four digits, which are always a key.
pub(crate) fn key_of(alloc: Global, entry: u32) -> Result<Key, Memory>
    ensures { IfOk result (λ key. key ≡ key_text entry) }
{
    let text = [
        b'e',
        b'n',
        b't',
        b'r',
        b'y',
        b'k',
        b'e',
        b'y',
        digit(entry / 1000),
        digit(entry / 100),
        digit(entry / 10),
        digit(entry),
    ];
    match Key::new(alloc, &text)? {
        Some(key) => Ok(key),
        None => Err(Memory),
    }
}

// The last digit of a number.
fn digit(n: u32) -> u8
    ensures { result ≡ digit n }
{
    b'0' + (n % 10) as u8
}

pub(crate) fn league_code(alloc: Global) -> Result<Code, Memory>
    ensures { IfOk result (λ code. code ≡ codes "all1") }
{
    match Code::new(alloc, b"all1")? {
        Some(code) => Ok(code),
        None => unreachable!(),
    }
}

pub(crate) fn league_name(alloc: Global) -> Result<Name, Memory>
    ensures { IfOk result (λ name. name ≡ codes "All") }
{
    match Name::new(alloc, b"All")? {
        Some(name) => Ok(name),
        None => Err(Memory),
    }
}
