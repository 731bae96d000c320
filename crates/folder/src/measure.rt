//! The length and the digests of a file.

ghost use Rattle.std.specs.Prelude.{◌≡◌, ◌<◌, ◌+◌, ◌-◌, ◌^◌, ◌++◌, ℕ, List, [], length, min, true};
ghost use Rattle.std.specs.Prelude.{is_some, IfOk, IfSome, OnOk};
ghost use Rattle.folder.specs.Measures.{HasTaken, IsDone, IsMeasure, LosesStart};
ghost use Rattle.folder.specs.Measures.{TakesMore, measure_of};

use sha2::{Digest, Sha256, Sha512};
use std::alloc::Global;
use std::io::{self, ErrorKind, Read};

/// Maximum number of bytes that are read at once.
const CHUNK: u64 = 65_536;

/// What is wanted of a file.
#[derive(Clone, Copy, Debug, PartialEq, Eq)]
pub struct Need {
    /// Maximum number of bytes to read.
    pub up_to: u64,
    /// Whether the SHA-256 digest is wanted.
    pub sha256: bool,
    /// Whether the SHA-512 digest is wanted.
    pub sha512: bool,
}

/// The length of the bytes that were read of a file, and the digests of them that were wanted.
#[derive(Clone, Copy, Debug, PartialEq, Eq)]
pub struct Measure {
    /// Number of bytes that were read.
    pub length: u64,
    /// The SHA-256 digest, if it was wanted.
    pub sha256: Option<[u8; 32]>,
    /// The SHA-512 digest, if it was wanted.
    pub sha512: Option<[u8; 64]>,
}

impl Measure {
    /// Measures these bytes.
    pub fn of(need: Need, bytes: &[u8]) -> Measure
        ensures measure { result ≡ measure_of need bytes.now }
    {
        let mut measuring = Measuring::new(need);
        measuring.take(bytes);
        measuring.end()
    }

    /// Measures what the reader has left, which is read once, a chunk at a time. Reads no byte
    /// after the first `up_to`.
    pub fn of_reader<R: Read>(alloc: Global, need: Need, reader: &mut R) -> io::Result<Measure>
        ensures some { IfOk result (IsMeasure need) }
        ensures known { IfOk result (λ m. IfSome (R.remaining reader.old)
            (λ bytes. m ≡ measure_of need bytes)) }
        ensures lost { OnOk result
            (LosesStart need.up_to (R.remaining reader.old) (R.remaining reader.new)) }
    {
        let mut chunk = Vec::from_elem(alloc, 0u8, piece_for(need))?;
        measure_by(need, reader, chunk.as_mut_slice())
    }
}

/// Returns how many bytes of a file are read at once: no more than are wanted, but at least one.
pub(crate) fn piece_for(need: Need) -> usize
    ensures { 0 < result }
{
    need.up_to.min(CHUNK).max(1) as usize
}

/// Measures what the reader has left, by pieces that fit in `room`.
fn measure_by<R: Read>(need: Need, reader: &mut R, room: &mut [u8]) -> io::Result<Measure>
    requires { 0 < length room.old }
    ensures some { IfOk result (IsMeasure need) }
    ensures known { IfOk result (λ m. IfSome (R.remaining reader.old)
        (λ bytes. m ≡ measure_of need bytes)) }
    ensures lost { OnOk result
        (LosesStart need.up_to (R.remaining reader.old) (R.remaining reader.new)) }
{
    let mut measuring = Measuring::new(need);
    for _ in 0..u64::MAX {
        if measuring.take_from(reader, room)? {
            return Ok(measuring.end());
        }
    }
    Err(io::Error::from(ErrorKind::Other))
}

/// A measure of bytes that are taken one piece after another.
#[derive(Drop)]
pub struct Measuring {
    need: Need,
    length: u64,
    sha256: Option<Sha256>,
    sha512: Option<Sha512>,
}

impl Measuring {
    /// Returns a measure of nothing yet.
    pub fn new(need: Need) -> Measuring
        ensures nothing { HasTaken result [] }
        ensures need { result.need ≡ need }
    {
        Measuring {
            need,
            length: 0,
            sha256: hasher_if(need.sha256),
            sha512: hasher_if(need.sha512),
        }
    }

    /// Takes the next piece, or as much of it as is still wanted.
    pub fn take(&mut self, piece: &[u8])
        ensures need { self.new.need ≡ self.old.need }
        ensures counted { self.new.length ≡ self.old.length
            + min (length piece.now) (self.old.need.up_to - self.old.length) }
        ensures taken { (bytes : List ℕ) → HasTaken self.old bytes
            → HasTaken self.new (bytes ++ piece.now) }
    {
        let most = self.most(piece.len());
        let start = &piece[..most];
        self.length += most as u64;
        feed(&mut self.sha256, start);
        feed(&mut self.sha512, start);
    }

    /// Returns how many of `len` bytes are still wanted.
    pub(crate) fn most(&self, len: usize) -> usize
        ensures count { result ≡ min len (self.now.need.up_to - self.now.length) }
        ensures fits { self.now.length + result < 2 ^ 64 }
    {
        let left = self.need.up_to.saturating_sub(self.length);
        left.min(len as u64) as usize
    }

    /// Takes one read of the reader, and returns whether no more is wanted or left.
    fn take_from<R: Read>(&mut self, reader: &mut R, room: &mut [u8]) -> io::Result<bool>
        requires { 0 < length room.old }
        ensures taken { OnOk result (TakesMore self.old self.new
            (R.remaining reader.old) (R.remaining reader.new)) }
        ensures end { IfOk result
            (λ ended. ended ≡ true → IsDone self.new (R.remaining reader.new)) }
    {
        let most = self.most(room.len());
        if most == 0 {
            return Ok(true);
        }
        match reader.read(&mut room[..most]) {
            Ok(0) => Ok(true),
            Ok(count) => {
                self.take(&room[..count]);
                Ok(false)
            }
            Err(error) => {
                if error.kind() != ErrorKind::Interrupted {
                    return Err(error);
                }
                Ok(false)
            }
        }
    }

    /// Returns the measure of what was taken.
    pub fn end(self) -> Measure
        ensures measure { (bytes : List ℕ) → HasTaken self bytes
            → result ≡ measure_of self.need bytes }
    {
        Measure {
            length: self.length,
            sha256: digest_if(self.sha256),
            sha512: digest_if(self.sha512),
        }
    }
}

/// Returns a hasher of no bytes, if it is wanted.
fn hasher_if<D: Digest>(is_wanted: bool) -> Option<D>
    ensures wanted { is_some result ≡ is_wanted }
    ensures empty { IfSome result (λ h. D.holds h []) }
{
    if !is_wanted {
        return None;
    }
    Some(D::new())
}

/// Adds the piece to the hasher, if there is one.
fn feed<D: Digest>(hasher: &mut Option<D>, piece: &[u8])
    ensures wanted { is_some hasher.new ≡ is_some hasher.old }
    ensures taken { (m : List ℕ) → IfSome hasher.old (λ h. D.holds h m)
        → IfSome hasher.new (λ h. D.holds h (m ++ piece.now)) }
{
    if let Some(hasher) = hasher {
        hasher.update(piece);
    }
}

/// Returns the digest of what was added to the hasher, if there is one.
fn digest_if<D: Digest>(hasher: Option<D>) -> Option<D::Output>
    ensures wanted { is_some result ≡ is_some hasher }
    ensures digest { (m : List ℕ) → IfSome hasher (λ h. D.holds h m)
        → IfSome result (λ d. D.digest_of m d) }
{
    let hasher = hasher?;
    Some(hasher.finalize())
}
