//! A file whose bytes are counted as they are read.

use crate::counts::Progress;
use crate::ground::Ground;
use std::fs::{FileTimes, Metadata, OpenFile, Permissions};
use std::io::{self, Read, Seek, SeekFrom, Write};

/// An open file. The bytes that are read from it are counted as digested, if there are counts.
#[derive(Drop)]
pub struct CountedFile<'a, F, G> {
    file: F,
    counts: Option<&'a Progress<'a, G>>,
}

impl<'a, F, G> CountedFile<'a, F, G> {
    /// Returns the file with these counts.
    pub(crate) fn new(file: F, counts: Option<&'a Progress<'a, G>>) -> CountedFile<'a, F, G> {
        CountedFile { file, counts }
    }
}

impl<'a, F: Read, G: Ground> Read for CountedFile<'a, F, G> {
    ghost remaining = { λ s. F.remaining s.file };

    fn read(&mut self, buf: &mut [u8]) -> io::Result<usize> {
        let count = self.file.read(buf)?;
        if let Some(counts) = self.counts {
            counts.count_digested(count as u64);
        }
        Ok(count)
    }
}

impl<'a, F: Write, G> Write for CountedFile<'a, F, G> {
    ghost contents = { λ s. F.contents s.file };

    fn write(&mut self, buf: &[u8]) -> io::Result<usize> {
        self.file.write(buf)
    }

    fn flush(&mut self) -> io::Result<()> {
        self.file.flush()
    }
}

impl<'a, F: Seek, G> Seek for CountedFile<'a, F, G> {
    ghost stream_position = { λ s. F.stream_position s.file };

    ghost stream_bytes = { λ s. F.stream_bytes s.file };

    fn seek(&mut self, to: SeekFrom) -> io::Result<u64> {
        self.file.seek(to)
    }
}

impl<'a, F: OpenFile, G> OpenFile for CountedFile<'a, F, G> {
    fn metadata(&self) -> io::Result<Metadata> {
        self.file.metadata()
    }

    fn set_len(&self, size: u64) -> io::Result<()> {
        self.file.set_len(size)
    }

    fn sync_all(&self) -> io::Result<()> {
        self.file.sync_all()
    }

    fn sync_data(&self) -> io::Result<()> {
        self.file.sync_data()
    }

    fn set_permissions(&self, perm: Permissions) -> io::Result<()> {
        self.file.set_permissions(perm)
    }

    fn set_times(&self, times: FileTimes) -> io::Result<()> {
        self.file.set_times(times)
    }

    fn try_clone(&self) -> io::Result<CountedFile<'a, F, G>> {
        Ok(CountedFile::new(self.file.try_clone()?, self.counts))
    }
}
