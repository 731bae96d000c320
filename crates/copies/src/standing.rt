//! Copies that are there already.

ghost use Rattle.std.specs.Prelude.{◌≡◌, ◌++◌, List, [], ℕ, Bool, IfOk, IfSome, true};
ghost use Rattle.std.specs.Io.KnownBytes.{Consumes, IsAtEnd};

use std::alloc::Global;
use std::fs::File;
use std::io::{self, Read};
use std::os::unix::fs::MetadataExt;
use system::Closed;

/// An open file that is compared with bytes, one piece after another.
pub trait Compared {
    /// What is left of a file that had no more bytes than those.
    type Whole: Closed + Drop;

    /// Whether the file has begun with the bytes, and they are all that was read of it.
    ghost began: { Self → List ℕ → Bool };

    /// Returns whether it is a plain file of that length, with no other name. Nothing was read of
    /// it yet.
    fn may_be(&mut self, length: u64) -> io::Result<bool>
        ensures unread { IfOk result (λ may. may ≡ true → began self.new [] ≡ true) };

    /// Reads as many bytes as the piece has, and returns whether they are the same.
    fn goes_on(&mut self, alloc: Global, piece: &[u8]) -> io::Result<bool>
        ensures same { IfOk result (λ is. is ≡ true → (bytes : List ℕ)
            → began self.old bytes ≡ true → began self.new (bytes ++ piece.now) ≡ true) };

    /// Closes the file, and returns what is left of it if it has no more bytes.
    fn whole(self) -> io::Result<Option<Self::Whole>>
        ensures whole { IfOk result (λ o. IfSome o (λ w. (bytes : List ℕ)
            → began self bytes ≡ true → Self.Whole.has w bytes ≡ true)) };
}

/// A file of the operating system that had these bytes and no others.
#[derive(Drop)]
pub struct Whole;

impl Closed for Whole {
    ghost has = { λ _ _. true };
}

/// Other programs may write to the file meanwhile.
impl Compared for File {
    type Whole = Whole;

    ghost began = { λ _ _. true };

    fn may_be(&mut self, length: u64) -> io::Result<bool> {
        let found = self.metadata()?;
        Ok(found.is_file() && found.len() == length && found.nlink() == 1)
    }

    fn goes_on(&mut self, alloc: Global, piece: &[u8]) -> io::Result<bool> {
        has_next(alloc, self, piece)
    }

    fn whole(self) -> io::Result<Option<Whole>> {
        let mut file = self;
        if is_at_end(&mut file)? {
            return Ok(Some(Whole));
        }
        Ok(None)
    }
}

/// Reads as many bytes as the piece has, and returns whether they are the same.
fn has_next<R: Read>(alloc: Global, reader: &mut R, piece: &[u8]) -> io::Result<bool>
    ensures same { IfOk result (λ is. is ≡ true
        → Consumes (R.remaining reader.old) (R.remaining reader.new) piece.now) }
{
    let mut room = Vec::from_elem(alloc, 0u8, piece.len())?;
    reader.read_exact(room.as_mut_slice())?;
    Ok(room.as_slice() == piece)
}

/// Returns whether the reader has no more bytes.
fn is_at_end<R: Read>(reader: &mut R) -> io::Result<bool>
    ensures end { IfOk result (λ is. is ≡ true → IsAtEnd (R.remaining reader.new)) }
{
    let mut room = [0u8; 1];
    Ok(reader.read(&mut room)? == 0)
}
