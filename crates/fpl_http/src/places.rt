// Where sessions keep what they have.
ghost use Rattle.std.specs.Prelude.{◌≡◌, [], IfOk, OnErr, false, true, length};
ghost use Rattle.fpl_http.specs.Held.{IsWaiting};

use crate::decoder::Decoder;
use crate::outbox::Outbox;
use fpl_base::Memory;
use std::alloc::Global;
use std::marker::Model;

/// Where a session keeps what it has: the bytes that came, and the texts that are to be written together.
#[derive(Drop)]
pub struct Places {
    pub decoder: Decoder,
    pub outbox: Outbox,
}

impl Places {
    /// Gives up what another session left.
    fn clear(&mut self)
        ensures waiting { IsWaiting self.new.decoder }
        ensures fresh { self.new.decoder.pending ≡ [] }
        ensures empty { self.new.outbox ≡ [] }
    {
        self.decoder.clear();
        self.outbox.clear();
    }
}

/// How many bytes a session reads at once.
const PIECE: usize = 65_536;

/// Places, with one to read into.
#[derive(Drop)]
struct Made {
    places: Places,
    piece: Vec<u8>,
    ghost sized: { length piece.items ≡ 65536 },
}

impl Made {
    /// Takes the memory that a session needs.
    fn new(alloc: Global) -> Result<Made, Memory> {
        let decoder = Decoder::new(alloc)?;
        let piece = vec![in alloc; 0; PIECE]?;
        let outbox = Outbox::new(alloc)?;
        Ok(Made {
            places: Places { decoder, outbox },
            piece,
        })
    }
}

/// The memory of sessions that follow one another: some 600 KB, which the first of them takes, and the others use again.
/// Seen as whether it is there.
#[derive(Drop)]
pub struct Buffers {
    made: Option<Made>,
}

impl Model for Buffers {
    ghost use Rattle.std.specs.Prelude.{Bool, is_some};

    ghost Value = { Bool };

    ghost view = { λ b. is_some b.made };
}

impl Buffers {
    /// Takes no memory yet.
    pub fn new() -> Self
        ensures { result ≡ false }
    {
        Buffers { made: None }
    }

    /// Hands out the places of a session, with nothing in them, and one to read into. The first time it takes their memory.
    pub(crate) fn take(&mut self, alloc: Global) -> Result<(Places, Vec<u8>), Memory>
        ensures waiting { IfOk result (λ p. IsWaiting p.0.decoder) }
        ensures fresh { IfOk result (λ p. p.0.decoder.pending ≡ []) }
        ensures empty { IfOk result (λ p. p.0.outbox ≡ []) }
        ensures room { IfOk result (λ p. length p.1.items ≡ 65536) }
        ensures memory { OnErr result (self.old ≡ false) }
    {
        let made = match self.made.take() {
            Some(made) => made,
            None => Made::new(alloc)?,
        };
        let Made { mut places, piece } = made;
        places.clear();
        Ok((places, piece))
    }

    /// Takes them back.
    pub(crate) fn keep(&mut self, places: Places, piece: Vec<u8>)
        requires { length piece.items ≡ 65536 }
        ensures { self.new ≡ true }
    {
        self.made = Some(Made { places, piece });
    }
}
