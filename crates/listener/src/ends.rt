// The two ends of a connection of one message, over memory.
ghost use Rattle.std.specs.Prelude.{◌≡◌, ◌≤◌, [], None, Some, vec_len, ⊤};

use fpl_base::{Failed, Sink, Source};

/// The bytes of one message, or bytes that are none. It ends behind them.
#[derive(Drop)]
pub struct Asked {
    bytes: Vec<u8>,
    from: usize,
    key: usize,
    ghost within: { from ≤ vec_len bytes },
}

impl Asked {
    pub(crate) fn new(bytes: Vec<u8>, key: usize) -> Self {
        Asked {
            bytes,
            from: 0,
            key,
        }
    }

    /// Which client it came from.
    pub(crate) fn key(&self) -> usize {
        self.key
    }

    pub(crate) fn bytes(&self) -> &[u8]
        ensures { result.now ≡ self.now.bytes.items }
    {
        self.bytes.as_slice()
    }
}

impl Source for Asked {
    ghost left = { λ _. None };

    ghost faults = { λ _. 0 };

    ghost one_read = { λ _ _. ⊤ };

    fn read(&mut self, into: &mut [u8]) -> Result<usize, Failed> {
        let rest = &self.bytes[self.from..];
        let count = into.len().min(rest.len());
        into[..count].copy_from_slice(&rest[..count]);
        self.from += count;
        Ok(count)
    }
}

/// What was written for a client, as far as there was memory for it.
#[derive(Drop)]
pub struct Told {
    bytes: Vec<u8>,
    faults: u64,
}

impl Told {
    pub(crate) fn new(bytes: Vec<u8>) -> Self
        requires { bytes.items ≡ [] }
        ensures empty { result.bytes.items ≡ [] }
        ensures faults { result.faults ≡ 0 }
    {
        Told { bytes, faults: 0 }
    }

    /// What was written, if nothing of it was lost.
    pub(crate) fn whole(self) -> Option<Vec<u8>> {
        if self.faults == 0 {
            Some(self.bytes)
        } else {
            None
        }
    }
}

impl Sink for Told {
    ghost taken = { λ s. Some s.bytes.items };

    ghost faults = { λ s. s.faults };

    fn write(&mut self, bytes: &[u8]) -> Result<(), Failed> {
        match self.bytes.extend_from_slice(bytes) {
            Ok(()) => Ok(()),
            Err(_) => {
                self.faults = self.faults.saturating_add(1);
                Err(Failed)
            }
        }
    }
}
