//! The interface of single files and of the clock.

ghost use Rattle.std.specs.Prelude.{◌≡◌, ◌≢◌, ◌≤◌, List, ℕ, Bool, true};
ghost use Rattle.std.specs.Prelude.{IfErr, IfOk, OnErr, OnOk, Option, length};
ghost use Rattle.std.specs.IoError.{error_kind};
ghost use Rattle.system.specs.Blocked.{Obstacles, is_of_path};
ghost use Rattle.system.specs.Bounds.{IsLonger};
ghost use Rattle.system.specs.Locks.{StaysLocked};

use folder::Sink;
use std::io::{self, ErrorKind};

/// A temporary file.
pub trait Temporary: Sink {
    /// Whether a piece of it couldn't be written.
    ghost is_lost: { Self → Bool };

    /// Whether the bytes are all that it was given, and each of them is on the device, or was there
    /// before.
    ghost wrote: { Self → List ℕ → Bool };

    /// Returns the path of the file, which may be the one that it is to have.
    fn path(&self) -> &str;
}

/// Single files, and the clock.
pub trait System {
    /// Whether `read` may return the bytes for the path.
    ghost gives: { Self → List ℕ → List ℕ → Bool };

    /// Whether `read_locked` may return the bytes for the path.
    ghost gives_locked: { Self → List ℕ → List ℕ → Bool };

    /// Whether `read` and `read_locked` may fail for the path, other than by being out of memory:
    /// the file can't be read, or has more bytes than are to be read.
    ghost refuses: { Self → List ℕ → Bool };

    /// Whether the file at the path is locked by `self`.
    ghost locks: { Self → List ℕ → Bool };

    /// Whether the file at the path was stored with the bytes.
    ghost keeps: { Self → List ℕ → List ℕ → Bool };

    /// What may keep a file from being put at a path.
    ghost obstacles: { Self → Obstacles };

    /// Whether the clock may show that number of whole seconds since 1970, or nothing.
    ghost shows: { Self → Option ℕ → Bool };

    /// Reads the file at `path`. Fails if it has more than `most` bytes.
    fn read(&self, path: &str, most: u64) -> io::Result<Vec<u8>>
        ensures given { IfOk result (λ bytes. gives self.now path.now bytes.items ≡ true) }
        ensures bounded { IfOk result (λ bytes. length bytes.items ≤ most) }
        ensures longer { IfErr result (λ e. error_kind e ≡ ErrorKind.FileTooLarge
            → IsLonger most (gives self.now path.now)) }
        ensures refused { IfErr result (λ e. error_kind e ≢ ErrorKind.OutOfMemory
            → refuses self.now path.now ≡ true) };

    /// Locks the file at `path`, and then reads it. Waits while another run has locked it. The lock
    /// is released when `self` is dropped. Fails if the file can't be locked, or has more than
    /// `most` bytes.
    fn read_locked(&mut self, path: &str, most: u64) -> io::Result<Vec<u8>>
        ensures given { IfOk result (λ bytes. gives_locked self.old path.now bytes.items ≡ true) }
        ensures bounded { IfOk result (λ bytes. length bytes.items ≤ most) }
        ensures locked { OnOk result (locks self.new path.now ≡ true) }
        ensures refused { IfErr result (λ e. error_kind e ≢ ErrorKind.OutOfMemory
            → refuses self.old path.now ≡ true) }
        ensures kept { keeps self.new ≡ keeps self.old }
        ensures same_obstacles { obstacles self.new ≡ obstacles self.old };

    /// Stores the bytes as the file at `path`, in place of what it held. On error nothing that was
    /// stored changes, and nothing at other paths ever does. What is locked stays so: if the file
    /// at `path` is, so is the one that takes its place, from before it does.
    fn store(&mut self, path: &str, bytes: &[u8]) -> io::Result<()>
        ensures kept { OnOk result (keeps self.new path.now bytes.now ≡ true) }
        ensures others { OnOk result ((other held : List ℕ) → other ≢ path.now
            → keeps self.new other held ≡ keeps self.old other held) }
        ensures refused { OnErr result (keeps self.new ≡ keeps self.old) }
        ensures failed { IfErr result (λ e. error_kind e ≢ ErrorKind.OutOfMemory
            → (obstacles self.old).fails path.now ≡ true) }
        ensures same_obstacles { obstacles self.new ≡ obstacles self.old }
        ensures locked { StaysLocked (locks self.old) (locks self.new) };

    /// Moves a temporary file to `path`, in one step, in place of what the path had, or leaves it
    /// there if that is its path. On error nothing that was stored changes, and nothing at other
    /// paths ever does. So it fails if what is at `path` is the file that is locked, or the one
    /// that was stored by `store`.
    fn install<K: Temporary>(&mut self, file: &K, path: &str) -> io::Result<()>
        ensures kept { OnOk result ((bytes : List ℕ)
            → K.wrote file.now bytes ≡ true → keeps self.new path.now bytes ≡ true) }
        ensures others { (other held : List ℕ) → other ≢ path.now
            → keeps self.new other held ≡ keeps self.old other held }
        ensures refused { OnErr result (keeps self.new ≡ keeps self.old) }
        ensures blocked { IfErr result (λ e. is_of_path (error_kind e) ≡ true
            → (obstacles self.old).blocks path.now ≡ true) }
        ensures failed { IfErr result (λ e. error_kind e ≢ ErrorKind.OutOfMemory
            → (obstacles self.old).fails path.now ≡ true) }
        ensures same_obstacles { obstacles self.new ≡ obstacles self.old }
        ensures locked { StaysLocked (locks self.old) (locks self.new) };

    /// Returns the whole seconds since 1970-01-01T00:00:00Z, or None if the clock can't be read or
    /// is before that.
    fn seconds(&self) -> Option<u64>
        ensures shown { shows self.now result ≡ true };
}
