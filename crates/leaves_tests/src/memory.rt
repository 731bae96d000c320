//! A leaves file, its log and a writer in memory.

ghost use Rattle.std.specs.Prelude.{true};

use leaves::{Calls, Event};
use std::alloc::Global;
use std::io::{self, ErrorKind};

/// What a device has after a power failure, and what is there before one.
#[derive(Drop)]
pub struct Memory {
    pub alloc: Global,
    /// The leaves file, as it is read.
    pub file: Option<Vec<u8>>,
    /// The leaves file that a power failure leaves.
    pub durable: Option<Vec<u8>>,
    /// The new file, and whether it was flushed.
    pub beside: Option<Vec<u8>>,
    pub is_flushed: bool,
    pub log: Vec<Vec<u8>>,
    pub given: Vec<Vec<u8>>,
    /// How many calls succeed before one fails.
    pub calls: u32,
    /// Whether the call that fails takes effect.
    pub takes_effect: bool,
}

impl Memory {
    /// Returns a device that has no file, of which no call fails.
    pub fn new(alloc: Global) -> Memory {
        Memory {
            alloc,
            file: None,
            durable: None,
            beside: None,
            is_flushed: false,
            log: Vec::new(alloc),
            given: Vec::new(alloc),
            calls: 1_000_000,
            takes_effect: false,
        }
    }

    /// Lets the power fail: what wasn't flushed is lost.
    pub fn lose_power(&mut self) -> io::Result<()> {
        self.beside = None;
        self.file = match &self.durable {
            Some(text) => Some(text.to_vec(self.alloc)?),
            None => None,
        };
        Ok(())
    }

    /// Counts a call. Returns whether it takes effect, and whether it succeeds.
    fn count(&mut self) -> (bool, io::Result<()>) {
        if self.calls == 0 {
            return (
                self.takes_effect,
                Err(io::Error::from(ErrorKind::WriteZero)),
            );
        }
        self.calls -= 1;
        (true, Ok(()))
    }
}

impl Calls for Memory {
    ghost has = { λ _ _. true };

    ghost is_flushed = { λ _. true };

    ghost holds = { λ _ _. true };

    ghost keeps = { λ _ _. true };

    ghost records = { λ _ _. true };

    ghost gives = { λ _ _. true };

    fn read(&mut self, alloc: Global) -> io::Result<Option<Vec<u8>>> {
        self.count().1?;
        match &self.file {
            Some(text) => Ok(Some(text.to_vec(alloc)?)),
            None => Ok(None),
        }
    }

    fn write_new(&mut self, text: &[u8]) -> io::Result<()> {
        let (happens, done) = self.count();
        if happens {
            self.beside = Some(text.to_vec(self.alloc)?);
            self.is_flushed = false;
        }
        done
    }

    fn flush_new(&mut self) -> io::Result<()> {
        let (happens, done) = self.count();
        if happens {
            self.is_flushed = true;
        }
        done
    }

    fn take_over(&mut self, _text: &[u8], _noted: &[Event]) -> io::Result<()> {
        let (happens, done) = self.count();
        if happens {
            self.file = self.beside.take();
        }
        done
    }

    fn flush_folder(&mut self) -> io::Result<()> {
        let (happens, done) = self.count();
        if happens {
            self.durable = match &self.file {
                Some(text) if self.is_flushed => Some(text.to_vec(self.alloc)?),
                _ => None,
            };
        }
        done
    }

    fn record(&mut self, text: &[u8]) -> io::Result<()> {
        let (happens, done) = self.count();
        if happens {
            self.log.push(text.to_vec(self.alloc)?)?;
        }
        done
    }

    fn hand(&mut self, sig: &[u8], _noted: &[Event]) -> io::Result<()> {
        let (happens, done) = self.count();
        if happens {
            self.given.push(sig.to_vec(self.alloc)?)?;
        }
        done
    }
}
