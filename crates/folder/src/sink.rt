//! The bytes of a file, passed on while they are measured.

ghost use Rattle.std.specs.Prelude.{◌≡◌, ◌<◌, ◌++◌, List, ℕ, Bool, true, IfOk, OnOk, length};
ghost use Rattle.folder.specs.Passing.{IsPassedOn, PassesOn};

use crate::measure::{Measure, Measuring, Need, piece_for};
use std::alloc::Global;
use std::io::{self, ErrorKind, Read};

/// What takes the bytes of a file, one piece after another, while the file is measured.
pub trait Sink {
    /// Whether it may have taken the bytes.
    ghost took: { Self → List ℕ → Bool };

    /// Takes the next piece. Doesn't fail: a sink that can't keep the piece has to know that
    /// itself.
    fn take(&mut self, piece: &[u8])
        ensures taken { (bytes : List ℕ) → took self.old bytes ≡ true
            → took self.new (bytes ++ piece.now) ≡ true };
}

/// Measures what the reader has left, which is read once, a chunk at a time, and passes each byte
/// that is measured to the sink. Reads no byte after the first `up_to`.
pub(crate) fn measure_and_pass<R: Read, K: Sink>(
    alloc: Global,
    need: Need,
    reader: &mut R,
    sink: &mut K,
) -> io::Result<Measure>
    ensures passed { IfOk result
        (IsPassedOn need (λ _. true) (K.took sink.old) (K.took sink.new)) }
{
    let mut chunk = Vec::from_elem(alloc, 0u8, piece_for(need))?;
    pass_by(need, reader, chunk.as_mut_slice(), sink)
}

/// Measures and passes on what the reader has left, by pieces that fit in `room`.
fn pass_by<R: Read, K: Sink>(
    need: Need,
    reader: &mut R,
    room: &mut [u8],
    sink: &mut K,
) -> io::Result<Measure>
    requires { 0 < length room.old }
    ensures passed { IfOk result
        (IsPassedOn need (λ _. true) (K.took sink.old) (K.took sink.new)) }
{
    let mut measuring = Measuring::new(need);
    for _ in 0..u64::MAX {
        if pass_one(&mut measuring, reader, room, sink)? {
            return Ok(measuring.end());
        }
    }
    Err(io::Error::from(ErrorKind::Other))
}

/// Measures and passes on one read of the reader, and returns whether no more is wanted or left.
fn pass_one<R: Read, K: Sink>(
    measuring: &mut Measuring,
    reader: &mut R,
    room: &mut [u8],
    sink: &mut K,
) -> io::Result<bool>
    requires { 0 < length room.old }
    ensures passed { OnOk result (PassesOn measuring.old measuring.new
        (K.took sink.old) (K.took sink.new)) }
{
    let most = measuring.most(room.len());
    if most == 0 {
        return Ok(true);
    }
    match reader.read(&mut room[..most]) {
        Ok(0) => Ok(true),
        Ok(count) => {
            measuring.take(&room[..count]);
            sink.take(&room[..count]);
            Ok(false)
        }
        Err(error) => {
            if error.kind() != ErrorKind::Interrupted {
                return Err(error);
            }
            Ok(false)
        }
    }
}
