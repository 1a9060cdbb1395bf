// The pages, with what reads the messages that may ask for them.
ghost use Rattle.std.specs.Prelude.{◌≡◌, ℕ, List, IfOk, IfSome, None, Ok, OnErr};
ghost use Rattle.listener.specs.Fates.{AsksForNone, AsksForPage, ShowsPage};
ghost use Rattle.listener.specs.declared.shown.Fate.TheVariants as fate;

use crate::ends::Asked;
use crate::pages::Pages;
use fpl_base::Memory;
use fpl_http::{Decoder, Next};
use std::alloc::Global;

#[derive(Drop)]
pub(crate) struct Shown {
    pages: Pages,
    decoder: Decoder,
}

impl Shown {
    pub(crate) fn new(alloc: Global, pages: Pages) -> Result<Shown, Memory>
        ensures { IfOk result (λ shown. shown.pages ≡ pages) }
    {
        Ok(Shown {
            pages,
            decoder: Decoder::new(alloc)?,
        })
    }

    /// What is answered to the bytes of one message, where it asks for a page. Of any other it takes no memory.
    pub(crate) fn answer(&mut self, alloc: Global, bytes: &[u8]) -> Result<Option<Vec<u8>>, Memory>
        ensures page { IfOk result
            (λ text. IfSome text (λ t. AsksForPage self.old.pages bytes.now t.items)) }
        ensures other { AsksForNone self.old.pages bytes.now → result ≡ Ok None }
        ensures out { OnErr result ((text : List ℕ) × AsksForPage self.old.pages bytes.now text) }
        ensures pages { self.new.pages ≡ self.old.pages }
    {
        self.decoder.clear();
        self.decoder.feed(bytes);
        match self.decoder.next() {
            Next::Message => match self.decoder.message() {
                Some(message) => self.pages.answer(alloc, &message),
                None => Ok(None),
            },
            Next::NeedMore | Next::Refused(_) => Ok(None),
        }
    }
}

/// What becomes of a message: it goes to the host as it came, or is answered with a page; or it asks for a page that there is no
/// memory for.
#[derive(Drop)]
pub(crate) enum Fate {
    Goes(Asked),
    Shows(Vec<u8>),
    Lost,
}

/// The fate of a message beside these pages. One that asks for none of them goes to the host as it came.
pub(crate) fn fate_of(alloc: Global, shown: &mut Shown, asked: Asked) -> Fate
    ensures page { ShowsPage shown.old.pages asked.bytes.items result }
    ensures other { AsksForNone shown.old.pages asked.bytes.items → result ≡ fate.Goes asked }
{
    match shown.answer(alloc, asked.bytes()) {
        Ok(None) => Fate::Goes(asked),
        Ok(Some(text)) => Fate::Shows(text),
        Err(Memory) => Fate::Lost,
    }
}
