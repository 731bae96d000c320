//! Plain files, of which no link is followed.

use std::fs::{self, OpenFile, OpenOptions};
use std::io::{self, ErrorKind, Read};
use std::os::unix::fs::MetadataExt;
use std::rt::Files;

/// Opens the plain file at `path` with these options. Fails with `InvalidInput` if a link or
/// anything else is there, also if it took the file's place meanwhile.
pub fn open_plain<R: Files>(rt: &R, path: &str, options: &OpenOptions) -> io::Result<R::File> {
    let (file, _) = opened(rt, path, options)?;
    Ok(file)
}

/// Opens the plain file at `path` for reading, as [`open_plain`] does.
pub(crate) fn open_to_read<R: Files>(rt: &R, path: &str) -> io::Result<PlainFile<R::File>> {
    let mut options = OpenOptions::new();
    options.read(true);
    let (file, length) = opened(rt, path, &options)?;
    Ok(PlainFile {
        file,
        length,
        count: 0,
        ended: false,
    })
}

/// Opens the plain file at `path` with these options. Returns it, and the length that it has then.
fn opened<R: Files>(rt: &R, path: &str, options: &OpenOptions) -> io::Result<(R::File, u64)> {
    let there = fs::symlink_metadata(rt, path)?;
    if !there.is_file() {
        return Err(io::Error::from(ErrorKind::InvalidInput));
    }
    let file = options.open(rt, path)?;
    let open = file.metadata()?;
    if open.dev() == there.dev() && open.ino() == there.ino() {
        Ok((file, open.len()))
    } else {
        Err(io::Error::from(ErrorKind::InvalidInput))
    }
}

/// A plain file that is read from its start. It has ended once a read returned fewer bytes than
/// there was room for, and all that its length counted: then the system isn't asked again.
#[derive(Drop)]
pub struct PlainFile<F> {
    file: F,
    /// The length of the file when it was opened.
    length: u64,
    /// Number of bytes that were read.
    count: u64,
    ended: bool,
}

impl<F: Read> Read for PlainFile<F> {
    fn read(&mut self, buf: &mut [u8]) -> io::Result<usize> {
        if self.ended {
            return Ok(0);
        }
        let count = self.file.read(buf)?;
        self.count = self.count.saturating_add(count as u64);
        self.ended = count < buf.len() && self.count == self.length;
        Ok(count)
    }
}
