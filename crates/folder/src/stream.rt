//! A file whose SHA-256 digest is computed in a lane.

ghost use Rattle.std.specs.Prelude.{◌≡◌, ◌≤◌, ◌<◌, ◌+◌, ◌-◌, ◌^◌, ℕ, List, Option, Bool, true};
ghost use Rattle.std.specs.Prelude.{false};
ghost use Rattle.std.specs.Prelude.{IfOk, IfSome, OnOk, length, min, string_bytes, take};
ghost use Rattle.std.specs.Io.KnownBytes.{Consumes, IsAtEnd};
ghost use Rattle.sha2.specs.Sha256.{digest_bytes, initial_hash_256};
ghost use Rattle.lanes.specs.Pending.{IsPending};
ghost use Rattle.folder.specs.Streams.{IsDrained, IsMeasureIn, IsOpened, IsStream};

use crate::job::{Done, Job};
use crate::measure::{Measure, Need};
use lanes::{PIECE, Pending};
use std::alloc::Global;
use std::io::{self, ErrorKind, Read};

/// Opens files by name.
pub trait Opener {
    type File: Read + Drop;

    /// The bytes of the file of that name, if they are known.
    ghost content: { Self → List ℕ → Option (List ℕ) };

    /// Opens the file of that name.
    fn open(&self, alloc: Global, name: &str) -> io::Result<Self::File>
        ensures { IfOk result
            (λ f. IsOpened (content self.now name.now) (Self.File.remaining f)) };
}

/// A file that is read. The first `length` bytes were read. The file has `ended` if no more bytes
/// are wanted or left.
#[derive(Drop)]
pub struct Stream<F> {
    name: String,
    need: Need,
    file: F,
    length: u64,
    ended: bool,
}

impl<F: Read + Drop> Stream<F> {
    /// Returns the file of that job, of which nothing was read.
    pub fn new(job: Job, file: F) -> Stream<F>
        requires sha256 { job.need.sha256 ≡ true }
        requires sha512 { job.need.sha512 ≡ false }
        ensures name { result.name ≡ job.name }
        ensures ended { result.ended ≡ false }
        ensures stream { (had : Option (List ℕ)) (p : Pending) → p.left ≡ 0
            → IsOpened had (F.remaining file)
            → IsStream had (F.remaining result.file) initial_hash_256 p result }
    {
        let Job { name, need } = job;
        Stream {
            name,
            need,
            file,
            length: 0,
            ended: false,
        }
    }

    /// Returns whether no more bytes of the file are wanted or left.
    pub fn has_ended(&self) -> bool
        ensures { result ≡ self.now.ended }
    {
        self.ended
    }

    /// Returns how many of `len` bytes are still wanted.
    fn most(&self, len: usize) -> usize
        ensures count { result ≡ min len (self.now.need.up_to - self.now.length) }
        ensures fits { self.now.length + result < 2 ^ 64 }
    {
        let left = self.need.up_to.saturating_sub(self.length);
        left.min(len as u64) as usize
    }

    /// Reads the next blocks of the file into the room of its lane, which has none left.
    pub fn refill(&mut self, room: &mut Pending) -> io::Result<()>
        requires { IsPending room.old }
        ensures room { IsPending room.new }
        ensures name { self.new.name ≡ self.old.name }
        ensures stream { OnOk result ((had : Option (List ℕ)) (hash : List ℕ)
            → IsDrained false had (F.remaining self.old.file) hash room.old self.old
            → IsStream had (F.remaining self.new.file) hash room.new self.new) }
    {
        let most = self.most(PIECE);
        let count = read_most(&mut self.file, room.bytes.as_mut_slice(), most)?;
        self.length += count as u64;
        if count == PIECE {
            room.put_piece();
            return Ok(());
        }
        self.ended = true;
        room.put_end(count, self.length);
        Ok(())
    }

    /// Returns the measure of the file, whose digest that is.
    pub fn done(self, digest: [u8; 32]) -> Done
        ensures name { result.name ≡ self.name }
        ensures measure { (had : Option (List ℕ)) (hash : List ℕ) (p : Pending)
            → IsDrained true had (F.remaining self.file) hash p self
            → digest ≡ digest_bytes hash 8
            → IsMeasureIn had result.need result.measure }
    {
        Done {
            name: self.name,
            need: self.need,
            measure: Measure {
                length: self.length,
                sha256: Some(digest),
                sha512: None,
            },
        }
    }
}

/// Reads `most` bytes to the start of the room, or all that the reader has if they are fewer.
/// Returns their number.
fn read_most<R: Read>(reader: &mut R, room: &mut [u8], most: usize) -> io::Result<usize>
    requires { most ≤ length room.old }
    ensures within { IfOk result (λ n. n ≤ most) }
    ensures taken { IfOk result (λ n. Consumes
        (R.remaining reader.old) (R.remaining reader.new) (take n room.new)) }
    ensures end { IfOk result (λ n. n < most → IsAtEnd (R.remaining reader.new)) }
{
    let mut count = 0;
    'reads: for _ in 0..u64::MAX {
        if count >= most {
            return Ok(count);
        }
        match reader.read(&mut room[count..most]) {
            Ok(0) => return Ok(count),
            Ok(n) => count += n,
            Err(error) => {
                if error.kind() != ErrorKind::Interrupted {
                    return Err(error);
                }
            }
        }
    }
    Err(io::Error::from(ErrorKind::Other))
}
