// The pages of a folder.
ghost use Rattle.std.specs.Prelude.{◌≡◌, ◌≤◌, ◌+◌, ◌&&◌, ◌++◌, ◌∷◌, [], true, None, Some, OnErr, OnOk, MatchResult, length, nat_le, nat_lt, option_map};
ghost use Rattle.listener.specs.Pages.{bytes_in, or_index, page_at, page_named, with_page};
ghost use Rattle.listener.specs.declared.pages.Unfit.TheVariants as unfit;

use crate::kinds::Kind;
use fpl_base::{Bytes, Memory, Text};
use std::alloc::Global;
use std::marker::Model;

/// How many pages there are at most.
const MOST: usize = 64;

/// How many bytes they have together at most.
const ROOM: usize = 8_388_608;

/// A page: the name of its file, and what it has.
#[derive(Drop)]
pub struct Page {
    pub name: Text,
    pub kind: Kind,
    pub bytes: Bytes,
}

/// Why a file is no page.
#[derive(Clone, Copy, Debug, PartialEq, Eq)]
pub enum Unfit {
    /// Its name or its ending is not one of a page, or there are too many pages or too many bytes.
    Refused,
    /// There was no memory for it.
    Memory,
}

/// The pages of a folder, which are 64 at most, with 8 MiB together at most. Seen as a list of them.
#[derive(Drop)]
pub struct Pages {
    pages: Vec<Page>,
}

impl Model for Pages {
    ghost use Rattle.std.specs.Prelude.{◌≤◌, List};
    ghost use Rattle.listener.specs.Pages.{bytes_in};
    ghost use Rattle.listener.specs.declared.pages.Page.{Page};

    ghost Value = { List Page };

    ghost view = { λ p. p.pages.items };

    ghost invariant = { λ p. bytes_in p.pages.items ≤ 8388608 };
}

impl Pages {
    /// No pages.
    pub fn new(alloc: Global) -> Self
        ensures { result ≡ [] }
    {
        Pages {
            pages: Vec::new(alloc),
        }
    }

    /// Takes in the file of this name, where it may be a page beside those that are there.
    pub fn add(&mut self, alloc: Global, name: &str, bytes: Bytes) -> Result<(), Unfit>
        ensures added { MatchResult result (λ _. with_page self.old name.now bytes ≡ Some self.new)
            (λ e. e ≡ unfit.Refused → with_page self.old name.now bytes ≡ None) }
        ensures kept { OnErr result (self.new ≡ self.old) }
    {
        let Some(kind) = Kind::of(name) else {
            return Err(Unfit::Refused);
        };
        if !has_room(self.pages.as_slice(), bytes.as_slice().len()) {
            return Err(Unfit::Refused);
        }
        let Ok(name) = Text::new(alloc, name) else {
            return Err(Unfit::Memory);
        };
        match put(&mut self.pages, Page { name, kind, bytes }) {
            Ok(()) => Ok(()),
            Err(Memory) => Err(Unfit::Memory),
        }
    }

    /// The page that a target asks for: `/NAME`, or `/` for `index.html`.
    pub fn at(&self, target: &[u8]) -> Option<&Page>
        ensures { option_map (λ p. p.now) result ≡ page_at self.now target.now }
    {
        match target {
            [] => None,
            [first, name @ ..] => {
                if *first == b'/' {
                    page_named(self.pages.as_slice(), or_index(name))
                } else {
                    None
                }
            }
        }
    }
}

// Puts a page behind the others.
#[tactic(auto, using(crate::proofs::PagesLemmas::bytes_in_more))]
fn put(pages: &mut Vec<Page>, page: Page) -> Result<(), Memory>
    ensures more { OnOk result (pages.new.items ≡ pages.old.items ++ page ∷ []) }
    ensures kept { OnErr result (pages.new.items ≡ pages.old.items) }
    ensures room { bytes_in pages.new.items ≤ length page.bytes + bytes_in pages.old.items }
{
    match pages.push(page) {
        Ok(()) => Ok(()),
        Err(_) => Err(Memory),
    }
}

// Whether there is room for one page more, of so many bytes.
fn has_room(pages: &[Page], size: usize) -> bool
    requires { bytes_in pages.now ≤ 8388608 }
    ensures value { result ≡ (nat_lt (length pages.now) 64
        && nat_le (size + bytes_in pages.now) 8388608) }
    ensures room { result ≡ true → size + bytes_in pages.now ≤ 8388608 }
{
    pages.len() < MOST && size <= ROOM - bytes_in(pages)
}

fn bytes_in(pages: &[Page]) -> usize
    requires { bytes_in pages.now ≤ 8388608 }
    ensures { result ≡ bytes_in pages.now }
{
    match pages {
        [] => 0,
        [page, others @ ..] => page.bytes.as_slice().len() + bytes_in(others),
    }
}

fn or_index(name: &[u8]) -> &[u8]
    ensures { result.now ≡ or_index name.now }
{
    match name {
        [] => b"index.html",
        [_, ..] => name,
    }
}

// The page of this name.
fn page_named<'a>(pages: &'a [Page], name: &[u8]) -> Option<&'a Page>
    ensures { option_map (λ p. p.now) result ≡ page_named pages.now name.now }
{
    match pages {
        [] => None,
        [page, others @ ..] => {
            if page.name.text().as_bytes() == name {
                Some(page)
            } else {
                page_named(others, name)
            }
        }
    }
}
