//! The system that a process runs on.

ghost use Rattle.std.specs.Prelude.{◌≡◌, ◌≤◌, true, IfOk, length};
ghost use Rattle.system.specs.Files as spec;

use crate::calls::{System, Temporary};
use crate::files::put;
use crate::held::{Held, Written, is_at_path, is_elsewhere, is_file_of, is_locked_at};
use crate::locks::open_locked;
use crate::own::OwnFile;
use std::alloc::Global;
use std::fs;
use std::io::{self, ErrorKind};
use std::rt::{Clock, Files};
use std::time::SystemTime;

/// The files and the clock of the operating system, the file that this run has locked, and the one
/// that it stored: a run stores at one path. Any bytes may be read and any time shown, since others
/// write and set them too.
pub struct Machine<'a, R: Files> {
    rt: &'a R,
    locked: Option<Held<R::File>>,
    stored: Option<Held<R::File>>,
}

impl<'a, R: Files> Drop for Machine<'a, R> {
    fn drop(self) {
        let Machine { rt, locked, stored } = self;
    }
}

impl<'a, R: Files> Machine<'a, R> {
    /// Returns the system of this runtime. No file is locked or stored.
    pub fn new(rt: &'a R) -> Machine<'a, R> {
        Machine {
            rt,
            locked: None,
            stored: None,
        }
    }
}

impl<'a, R: Files> Machine<'a, R> {
    /// Returns whether the path leads to the file that was locked or stored.
    fn has_at(&self, path: &str) -> io::Result<bool> {
        let there = match fs::metadata(self.rt, path) {
            Ok(there) => there,
            Err(error) if error.kind() == ErrorKind::NotFound => return Ok(false),
            Err(error) => return Err(error),
        };
        Ok(is_file_of(&self.locked, &there)? || is_file_of(&self.stored, &there)?)
    }
}

impl<'a, R: Files + Clock + AllocGlobal> System for Machine<'a, R>
where
    R::File: OwnFile,
{
    ghost gives = { λ _ _ _. true };

    ghost gives_locked = { λ _ _ _. true };

    ghost refuses = { λ _ _. true };

    ghost locks = { λ m. spec.locks R.File.is_locked m.locked m.stored };

    ghost keeps = { λ m. spec.keeps R.File.has m.stored };

    ghost obstacles = { λ _. record { blocks = λ _. true; fails = λ _. true } };

    ghost shows = { λ _ _. true };

    fn read(&self, path: &str, most: u64) -> io::Result<Vec<u8>> {
        let mut file = fs::open(self.rt, path)?;
        read_whole(self.rt.alloc(), &mut file, most)
    }

    /// Fails if the file is the one that this run stored.
    fn read_locked(&mut self, path: &str, most: u64) -> io::Result<Vec<u8>> {
        if is_at_path(&self.stored, path) {
            return Err(io::Error::from(ErrorKind::Deadlock));
        }
        let name = String::from_str(self.rt.alloc(), path)?;
        let mut file = open_locked(self.rt, path)?;
        let bytes = read_whole(self.rt.alloc(), &mut file, most)?;
        let is_locked = true;
        self.locked = Some(Held {
            path: name,
            written: Written { file, is_locked },
        });
        Ok(bytes)
    }

    /// Fails if this run has stored a file at another path.
    fn store(&mut self, path: &str, bytes: &[u8]) -> io::Result<()> {
        if is_elsewhere(&self.stored, path) {
            return Err(io::Error::from(ErrorKind::Unsupported));
        }
        let name = String::from_str(self.rt.alloc(), path)?;
        let must_lock = is_locked_at(&self.stored, path) || is_locked_at(&self.locked, path);
        let written = put(self.rt, path, must_lock, bytes)?;
        self.stored = Some(Held {
            path: name,
            written,
        });
        Ok(())
    }

    /// Fails if the path leads to the file that this run locked or stored, under any name.
    fn install<K: Temporary>(&mut self, file: &K, path: &str) -> io::Result<()> {
        if is_at_path(&self.stored, path) || self.has_at(path)? {
            return Err(io::Error::from(ErrorKind::AlreadyExists));
        }
        if file.path() == path {
            return Ok(());
        }
        fs::rename(self.rt, file.path(), path)
    }

    fn seconds(&self) -> Option<u64> {
        whole_seconds(self.rt)
    }
}

/// Reads the file to its end. Fails with `FileTooLarge` if it has more than `most` bytes.
fn read_whole<F: OwnFile>(alloc: Global, file: &mut F, most: u64) -> io::Result<Vec<u8>>
    ensures bounded { IfOk result (λ bytes. length bytes.items ≤ most) }
    ensures locked { F.is_locked file.new ≡ F.is_locked file.old }
{
    let bytes = file.read_start(alloc, most.saturating_add(1))?;
    if bytes.len() as u64 > most {
        return Err(io::Error::from(ErrorKind::FileTooLarge));
    }
    Ok(bytes)
}

/// Returns the whole seconds that the clock shows since 1970-01-01T00:00:00Z, or None if it can't
/// be read or is before that.
pub fn whole_seconds<R: Clock>(rt: &R) -> Option<u64> {
    let time = SystemTime::now(rt).ok()?;
    Some(time.duration_since(SystemTime::UNIX_EPOCH).ok()?.as_secs())
}
