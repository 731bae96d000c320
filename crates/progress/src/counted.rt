//! Files whose opening and reading is counted.

use crate::counts::Progress;
use crate::file::CountedFile;
use crate::ground::Ground;
use std::alloc::{AllocError, Allocator};
use std::fs::{Metadata, OpenOptions, Permissions};
use std::io::{self, PipeReader, PipeWriter};
use std::os::fd::BorrowedFd;
use std::os::unix::net::SocketAddr;
use std::path::PathBuf;
use std::rt::Files;

/// The files of `R`. Each that is opened for reading is counted.
#[derive(Drop)]
pub struct Counted<'a, R, G> {
    rt: &'a R,
    progress: &'a Progress<'a, G>,
    /// Whether the bytes that are read are counted as digested.
    are_digested: bool,
}

impl<'a, R, G> Clone for Counted<'a, R, G> {
    fn clone(&self) -> Result<Counted<'a, R, G>, AllocError> {
        Ok(*self)
    }
}

impl<'a, R, G> Copy for Counted<'a, R, G> {}

impl<'a, R, G> Counted<'a, R, G> {
    /// Returns the files of `rt`, whose bytes aren't counted.
    pub fn opened(rt: &'a R, progress: &'a Progress<'a, G>) -> Counted<'a, R, G> {
        Counted {
            rt,
            progress,
            are_digested: false,
        }
    }

    /// Returns the files of `rt`, whose bytes are counted as digested when they are read.
    pub fn digested(rt: &'a R, progress: &'a Progress<'a, G>) -> Counted<'a, R, G> {
        Counted {
            rt,
            progress,
            are_digested: true,
        }
    }

    /// Returns the counts for the bytes of a file, if they are counted.
    fn counts(&self) -> Option<&'a Progress<'a, G>> {
        if !self.are_digested {
            return None;
        }
        Some(self.progress)
    }
}

impl<'a, R: Alloc, G> Alloc for Counted<'a, R, G> {
    type A = R::A;

    fn alloc(&self) -> R::A {
        self.rt.alloc()
    }
}

impl<'a, R: Files, G: Ground> Files for Counted<'a, R, G> {
    type File = CountedFile<'a, R::File, G>;

    type Dir = R::Dir;

    fn open_file(&self, how: &OpenOptions, path: &str) -> io::Result<CountedFile<'a, R::File, G>> {
        let file = self.rt.open_file(how, path)?;
        if how.asks_read() {
            self.progress.count_file();
        }
        Ok(CountedFile::new(file, self.counts()))
    }

    fn open_dir(&self, path: &str) -> io::Result<R::Dir> {
        self.rt.open_dir(path)
    }

    fn metadata(&self, path: &str) -> io::Result<Metadata> {
        self.rt.metadata(path)
    }

    fn symlink_metadata(&self, path: &str) -> io::Result<Metadata> {
        self.rt.symlink_metadata(path)
    }

    fn copy(&self, from: &str, to: &str) -> io::Result<u64> {
        self.rt.copy(from, to)
    }

    fn rename(&self, from: &str, to: &str) -> io::Result<()> {
        self.rt.rename(from, to)
    }

    fn remove_file(&self, path: &str) -> io::Result<()> {
        self.rt.remove_file(path)
    }

    fn create_dir(&self, path: &str) -> io::Result<()> {
        self.rt.create_dir(path)
    }

    fn remove_dir(&self, path: &str) -> io::Result<()> {
        self.rt.remove_dir(path)
    }

    fn remove_dir_all<B: Allocator>(&self, alloc: B, path: &str) -> io::Result<()> {
        self.rt.remove_dir_all(alloc, path)
    }

    fn canonicalize<B: Allocator>(&self, alloc: B, path: &str) -> io::Result<PathBuf<B>> {
        self.rt.canonicalize(alloc, path)
    }

    fn read_link<B: Allocator>(&self, alloc: B, path: &str) -> io::Result<PathBuf<B>> {
        self.rt.read_link(alloc, path)
    }

    fn hard_link(&self, original: &str, link: &str) -> io::Result<()> {
        self.rt.hard_link(original, link)
    }

    fn set_permissions(&self, path: &str, perm: Permissions) -> io::Result<()> {
        self.rt.set_permissions(path, perm)
    }

    fn symlink(&self, original: &str, link: &str) -> io::Result<()> {
        self.rt.symlink(original, link)
    }

    fn pipe(&self) -> io::Result<(PipeReader, PipeWriter)> {
        self.rt.pipe()
    }

    fn chown(&self, path: &str, uid: Option<u32>, gid: Option<u32>) -> io::Result<()> {
        self.rt.chown(path, uid, gid)
    }

    fn lchown(&self, path: &str, uid: Option<u32>, gid: Option<u32>) -> io::Result<()> {
        self.rt.lchown(path, uid, gid)
    }

    fn create_dir_with_mode(&self, path: &str, mode: u32) -> io::Result<()> {
        self.rt.create_dir_with_mode(path, mode)
    }

    fn bind_unix(&self, socket: BorrowedFd<'_>, addr: &SocketAddr) -> io::Result<()> {
        self.rt.bind_unix(socket, addr)
    }
}
