//! The first bytes of a file.

ghost use Rattle.std.specs.Prelude.{◌≡◌, ◌≤◌, length, take, IfOk, IfSome};

use std::alloc::Global;
use std::io::{self, Read};

/// Cuts off the bytes after the first `up_to`.
pub(crate) fn cut(bytes: &mut Vec<u8>, up_to: u64)
    ensures start { bytes.new.items ≡ take up_to bytes.old.items }
{
    bytes.truncate(up_to as usize);
}

/// Reads the first `up_to` bytes of what the reader has left, or all if there are no more.
pub fn start_of_reader<R: Read>(alloc: Global, reader: &mut R, up_to: u64) -> io::Result<Vec<u8>>
    ensures within { IfOk result (λ start. length start.items ≤ up_to) }
    ensures known { IfOk result (λ start. IfSome (R.remaining reader.old)
        (λ bytes. start.items ≡ take up_to bytes)) }
{
    let mut bytes = Vec::new(alloc);
    reader.take(up_to).read_to_end(&mut bytes)?;
    // The library's contract limits the count only if the bytes of the reader are known.
    cut(&mut bytes, up_to);
    Ok(bytes)
}
