// Owned texts. A contract sees each as its bytes.
ghost use Rattle.std.specs.Prelude.{◌≡◌, ◌&&◌, ℕ, List, IfOk, IsTrue, SomeIff, string_bytes};
ghost use Rattle.std.specs.List.{list_all};
ghost use Rattle.std.specs.Str.{is_utf8};
ghost use Rattle.fpl_base.specs.Texts.{has_length, is_shown, is_letter_or_digit, is_name, is_key, is_code};

use crate::Memory;
use std::alloc::Global;
use std::marker::Model;
use std::str;

/// Owned UTF-8 text of any length.
#[derive(Drop)]
pub struct Text {
    text: String,
}

impl Model for Text {
    ghost Value = { List ℕ };

    ghost view = { λ t. string_bytes t.text };
}

impl Text {
    /// A copy of the text.
    pub fn new(alloc: Global, text: &str) -> Result<Self, Memory>
        ensures { IfOk result (λ t. t ≡ text.now) }
    {
        Ok(Text {
            text: String::from_str(alloc, text)?,
        })
    }

    /// The text itself.
    pub fn text(&self) -> &str
        ensures { result.now ≡ self.now }
    {
        self.text.as_str()
    }
}

/// The name of a club, a player, an entry or a league: UTF-8 text of 1 to 64 bytes, without the bytes below 32 and 127.
#[derive(Drop)]
pub struct Name {
    bytes: Vec<u8>,
}

impl Model for Name {
    ghost Value = { List ℕ };

    ghost view = { λ n. n.bytes.items };

    ghost invariant = { λ n. IsTrue (is_name n.bytes.items) };
}

impl Name {
    /// The name of these bytes; `Ok(None)` exactly where they are no name.
    pub fn new(alloc: Global, bytes: &[u8]) -> Result<Option<Self>, Memory>
        ensures { IfOk result (λ name. SomeIff name (IsTrue (is_name bytes.now)) bytes.now) }
    {
        if !may_be_name(bytes) {
            return Ok(None);
        }
        let bytes = copied(alloc, bytes)?;
        Ok(Some(Name { bytes }))
    }

    /// Its bytes, which are UTF-8.
    pub fn bytes(&self) -> &[u8]
        ensures bytes { result.now ≡ self.now }
        ensures name { IsTrue (is_name self.now) }
    {
        // That they are those of a name, for the prover.
        let _ = &self.bytes;
        self.bytes.as_slice()
    }

    /// Another name of the same bytes.
    pub fn copy(&self) -> Result<Self, Memory>
        ensures { IfOk result (λ copy. copy ≡ self.now) }
    {
        // That they are those of a name, for the prover.
        let _ = &self.bytes;
        Ok(Name {
            bytes: self.bytes.clone()?,
        })
    }
}

/// What a caller shows to be let in: 8 to 64 small letters and digits.
#[derive(Drop)]
pub struct Key {
    bytes: Vec<u8>,
}

impl Model for Key {
    ghost Value = { List ℕ };

    ghost view = { λ k. k.bytes.items };

    ghost invariant = { λ k. IsTrue (is_key k.bytes.items) };
}

impl Key {
    /// The key of these bytes; `Ok(None)` exactly where they are no key.
    pub fn new(alloc: Global, bytes: &[u8]) -> Result<Option<Self>, Memory>
        ensures { IfOk result (λ key. SomeIff key (IsTrue (is_key bytes.now)) bytes.now) }
    {
        if !may_be_key(bytes) {
            return Ok(None);
        }
        let bytes = copied(alloc, bytes)?;
        Ok(Some(Key { bytes }))
    }

    /// Its bytes.
    pub fn bytes(&self) -> &[u8]
        ensures bytes { result.now ≡ self.now }
        ensures key { IsTrue (is_key self.now) }
    {
        // That they are those of a key, for the prover.
        let _ = &self.bytes;
        self.bytes.as_slice()
    }

    /// Another key of the same bytes.
    pub fn copy(&self) -> Result<Self, Memory>
        ensures { IfOk result (λ copy. copy ≡ self.now) }
    {
        // That they are those of a key, for the prover.
        let _ = &self.bytes;
        Ok(Key {
            bytes: self.bytes.clone()?,
        })
    }
}

/// What an entry needs to join a league: 4 to 16 small letters and digits.
#[derive(Drop)]
pub struct Code {
    bytes: Vec<u8>,
}

impl Model for Code {
    ghost Value = { List ℕ };

    ghost view = { λ c. c.bytes.items };

    ghost invariant = { λ c. IsTrue (is_code c.bytes.items) };
}

impl Code {
    /// The code of these bytes; `Ok(None)` exactly where they are no code.
    pub fn new(alloc: Global, bytes: &[u8]) -> Result<Option<Self>, Memory>
        ensures { IfOk result (λ code. SomeIff code (IsTrue (is_code bytes.now)) bytes.now) }
    {
        if !may_be_code(bytes) {
            return Ok(None);
        }
        let bytes = copied(alloc, bytes)?;
        Ok(Some(Code { bytes }))
    }

    /// Its bytes.
    pub fn bytes(&self) -> &[u8]
        ensures bytes { result.now ≡ self.now }
        ensures code { IsTrue (is_code self.now) }
    {
        // That they are those of a code, for the prover.
        let _ = &self.bytes;
        self.bytes.as_slice()
    }

    /// Another code of the same bytes.
    pub fn copy(&self) -> Result<Self, Memory>
        ensures { IfOk result (λ copy. copy ≡ self.now) }
    {
        // That they are those of a code, for the prover.
        let _ = &self.bytes;
        Ok(Code {
            bytes: self.bytes.clone()?,
        })
    }
}

fn copied(alloc: Global, bytes: &[u8]) -> Result<Vec<u8>, Memory>
    ensures { IfOk result (λ v. v.items ≡ bytes.now) }
{
    let mut copy = Vec::with_capacity(alloc, bytes.len())?;
    copy.extend_from_slice(bytes)?;
    Ok(copy)
}

fn may_be_name(bytes: &[u8]) -> bool
    ensures { result ≡ is_name bytes.now }
{
    is_long_between(bytes, 1, 64) && are_shown(bytes) && is_text(bytes)
}

fn may_be_key(bytes: &[u8]) -> bool
    ensures { result ≡ is_key bytes.now }
{
    is_long_between(bytes, 8, 64) && are_letters(bytes)
}

fn may_be_code(bytes: &[u8]) -> bool
    ensures { result ≡ is_code bytes.now }
{
    is_long_between(bytes, 4, 16) && are_letters(bytes)
}

fn are_shown(bytes: &[u8]) -> bool
    ensures { result ≡ list_all is_shown bytes.now }
{
    bytes.iter().all(|b| is_shown_byte(*b))
}

fn are_letters(bytes: &[u8]) -> bool
    ensures { result ≡ list_all is_letter_or_digit bytes.now }
{
    bytes.iter().all(|b| is_letter(*b))
}

fn is_long_between(bytes: &[u8], least: usize, most: usize) -> bool
    ensures { result ≡ has_length least most bytes.now }
{
    bytes.len() >= least && bytes.len() <= most
}

fn is_shown_byte(b: u8) -> bool
    ensures { result ≡ is_shown b }
{
    b >= 32 && b != 127
}

fn is_letter(b: u8) -> bool
    ensures { result ≡ is_letter_or_digit b }
{
    b >= b'a' && b <= b'z' || b >= b'0' && b <= b'9'
}

fn is_text(bytes: &[u8]) -> bool
    ensures { result ≡ is_utf8 bytes.now }
{
    match str::from_utf8(bytes) {
        Ok(_) => true,
        Err(_) => false,
    }
}
