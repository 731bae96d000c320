//! Open files of a run.

ghost use Rattle.std.specs.Prelude.{◌≡◌, ◌≤◌, ◌++◌, List, [], ℕ, Bool, true, IfOk, OnOk, length};

use folder::start_of_reader;
use std::alloc::Global;
use std::fs::{File, TryLockError};
use std::io::{self, Write};

/// A file that was closed, once all that was written to it was flushed to the device.
pub trait Closed {
    /// Whether the bytes are those that the file had.
    ghost has: { Self → List ℕ → Bool };
}

/// An open file whose lock and bytes contracts follow. What is done to it leaves it locked.
pub trait OwnFile {
    /// What is left of the file once it was closed.
    type Closed: Closed + Drop;

    /// Whether the file is locked, until it is closed.
    ghost is_locked: { Self → Bool };

    /// Whether the bytes are those that were written to the file, and no others.
    ghost has: { Self → List ℕ → Bool };

    /// Whether all that was written to the file was flushed to the device.
    ghost is_flushed: { Self → Bool };

    /// Locks the file. Waits while another open of it holds a lock. The lock is released when the
    /// file is closed.
    fn lock(&mut self) -> io::Result<()>
        ensures locked { OnOk result (is_locked self.new ≡ true) }
        ensures same { has self.new ≡ has self.old };

    /// Locks the file and returns true, or returns false if another open of it holds a lock.
    fn try_lock(&mut self) -> io::Result<bool>
        ensures locked { IfOk result (λ is. is ≡ true → is_locked self.new ≡ true) };

    /// Reads what is left of the file, up to `most` bytes.
    fn read_start(&mut self, alloc: Global, most: u64) -> io::Result<Vec<u8>>
        ensures bounded { IfOk result (λ bytes. length bytes.items ≤ most) }
        ensures locked { is_locked self.new ≡ is_locked self.old };

    /// Empties the file, unless it isn't a plain one.
    fn begin(&mut self) -> io::Result<()>
        ensures empty { OnOk result (has self.new [] ≡ true) }
        ensures locked { is_locked self.new ≡ is_locked self.old };

    /// Writes the bytes after those that it has.
    fn add(&mut self, bytes: &[u8]) -> io::Result<()>
        ensures added { OnOk result ((before : List ℕ) → has self.old before ≡ true
            → has self.new (before ++ bytes.now) ≡ true) }
        ensures locked { is_locked self.new ≡ is_locked self.old };

    /// Flushes the file to the device.
    fn flush_all(&mut self) -> io::Result<()>
        ensures flushed { OnOk result (is_flushed self.new ≡ true) }
        ensures same { has self.new ≡ has self.old }
        ensures locked { is_locked self.new ≡ is_locked self.old };

    /// Flushes the file to the device, and closes it.
    fn close(self) -> io::Result<Self::Closed>
        ensures has { IfOk result (λ closed. (bytes : List ℕ) → has self bytes ≡ true
            → Self.Closed.has closed bytes ≡ true) };
}

/// A file of the operating system that was flushed and closed.
#[derive(Drop)]
pub struct Flushed;

impl Closed for Flushed {
    ghost has = { λ _ _. true };
}

/// Other programs may write to the file too. That the operating system keeps others away from a
/// locked file, and keeps what was flushed, is not proved.
impl OwnFile for File {
    type Closed = Flushed;

    ghost is_locked = { λ _. true };

    ghost has = { λ _ _. true };

    ghost is_flushed = { λ _. true };

    fn lock(&mut self) -> io::Result<()> {
        File::lock(self)
    }

    fn try_lock(&mut self) -> io::Result<bool> {
        match File::try_lock(self) {
            Ok(()) => Ok(true),
            Err(TryLockError::WouldBlock) => Ok(false),
            Err(TryLockError::Error(error)) => Err(error),
        }
    }

    fn read_start(&mut self, alloc: Global, most: u64) -> io::Result<Vec<u8>> {
        start_of_reader(alloc, self, most)
    }

    fn begin(&mut self) -> io::Result<()> {
        if self.metadata()?.is_file() {
            self.set_len(0)
        } else {
            Ok(())
        }
    }

    fn add(&mut self, bytes: &[u8]) -> io::Result<()> {
        self.write_all(bytes)
    }

    fn flush_all(&mut self) -> io::Result<()> {
        self.sync_all()
    }

    fn close(self) -> io::Result<Flushed> {
        self.sync_all()?;
        Ok(Flushed)
    }
}
