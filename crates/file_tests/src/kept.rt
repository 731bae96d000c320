//! A destination of copies in memory.

ghost use Rattle.std.specs.Prelude.{◌≡◌, ◌&&◌, ◌||◌, [], bytes_eq, codes, false, nat_lt, not};
ghost use Rattle.std.specs.Prelude.{true};

use copies::Destination;
use folder::{Sink, path_below};
use std::alloc::Global;
use std::io::{self, ErrorKind};
use system::Temporary;

/// A temporary file in memory, or a copy that is there. What it was given is known, unless a piece
/// of it was lost.
#[derive(Drop)]
pub struct Piece {
    bytes: Vec<u8>,
    is_lost: bool,
    is_ended: bool,
}

impl Piece {
    /// Returns a file that was given nothing yet.
    fn new(alloc: Global) -> Piece
        ensures empty { result.bytes.items ≡ [] }
    {
        Piece {
            bytes: Vec::new(alloc),
            is_lost: false,
            is_ended: false,
        }
    }

    /// Returns the bytes that it was given.
    pub fn bytes(&self) -> &[u8] {
        self.bytes.as_slice()
    }
}

impl Sink for Piece {
    ghost took = { λ p bytes. p.is_lost || bytes_eq p.bytes.items bytes };

    fn take(&mut self, piece: &[u8]) {
        if self.bytes.extend_from_slice(piece).is_err() {
            self.is_lost = true;
        }
    }
}

impl Temporary for Piece {
    ghost is_lost = { λ p. p.is_lost };

    ghost wrote = { λ p bytes. p.is_ended && bytes_eq p.bytes.items bytes };

    fn path(&self) -> &str {
        ""
    }
}

/// A destination in memory, at the path `to`, of which contracts follow all: whether temporary
/// files may be left, whether copies are flushed, and whether a call fails. No path is blocked.
#[derive(Clone, Copy)]
pub struct Kept {
    begins: bool,
    finishes: bool,
    made: u64,
    left: u64,
    is_flushed: bool,
    /// The bytes of the copy that is there for each path, if there is one.
    there: Option<&'static str>,
}

impl Kept {
    /// Returns a destination of which no call fails.
    pub fn working() -> Kept {
        Kept::with(true, true)
    }

    /// Returns a destination that begins and finishes temporary files, or fails to.
    pub fn with(begins: bool, finishes: bool) -> Kept {
        Kept {
            begins,
            finishes,
            made: 0,
            left: 0,
            is_flushed: false,
            there: None,
        }
    }

    /// Returns a destination of which no call fails, where each path has a copy of these bytes.
    pub fn holding(bytes: &'static str) -> Kept {
        let mut kept = Kept::working();
        kept.there = Some(bytes);
        kept
    }

    /// Returns how many temporary files were made.
    pub fn made(&self) -> u64 {
        self.made
    }

    /// Returns how many temporary files weren't removed.
    pub fn left(&self) -> u64 {
        self.left
    }
}

impl Destination for Kept {
    type Temporary = Piece;

    ghost site = { λ k. record {
      path = codes "to";
      blocks = λ _. false;
      fails = not (k.begins && k.finishes);
    } };

    ghost is_left = { λ k. nat_lt 0 k.left };

    ghost is_flushed = { λ k. k.is_flushed };

    fn begin(&mut self, alloc: Global) -> io::Result<Piece> {
        if !self.begins {
            return Err(io::Error::from(ErrorKind::Other));
        }
        self.made = self.made.saturating_add(1);
        self.left = self.left.saturating_add(1);
        Ok(Piece::new(alloc))
    }

    fn standing(&mut self, alloc: Global, _path: &str, length: u64) -> io::Result<Option<Piece>> {
        match self.there {
            Some(bytes) if bytes.len() as u64 == length => Ok(Some(Piece::new(alloc))),
            _ => Ok(None),
        }
    }

    fn is_same(&mut self, file: &mut Piece) -> bool {
        file.is_ended = match self.there {
            Some(bytes) => !file.is_lost && file.bytes.as_slice() == bytes.as_bytes(),
            None => false,
        };
        file.is_ended
    }

    fn finish(&mut self, file: &mut Piece) -> io::Result<()> {
        if file.is_lost {
            return Err(io::Error::from(ErrorKind::OutOfMemory));
        }
        if !self.finishes {
            return Err(io::Error::from(ErrorKind::Other));
        }
        file.is_ended = true;
        Ok(())
    }

    fn place_for(&self, alloc: Global, path: &str) -> io::Result<String> {
        Ok(path_below(alloc, "to", path)?)
    }

    fn flush(&mut self, _alloc: Global, _paths: &[String], _stored: &[bool]) -> io::Result<()> {
        self.is_flushed = true;
        Ok(())
    }

    fn discard(&mut self, _file: Piece) {
        self.left = self.left.saturating_sub(1);
    }

    fn clear(&mut self, _alloc: Global) {
        self.left = 0;
    }
}
