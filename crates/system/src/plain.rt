//! A plain file that is replaced through a temporary file beside it.

ghost use Rattle.std.specs.Prelude.{◌≡◌, true, false, IfOk, IfSome, OnOk, is_some};
ghost use Rattle.std.specs.Option.{option_map_or};
ghost use Rattle.system.specs.Files as spec;

use crate::held::Written;
use crate::leftovers::{NAMES, name_beside, remove_leftovers};
use crate::locks::is_at;
use crate::own::OwnFile;
use crate::place::Place;
use std::fs::{self, Metadata, OpenFile, OpenOptions};
use std::io::{self, ErrorKind};
use std::os::unix::fs::{MetadataExt, OpenOptionsExt, PermissionsExt, lchown};
use std::rt::Files;

/// The mode of a file that its owner may read and write.
const OWNERS: u32 = 0o600;

/// A plain file, or a name for one.
#[derive(Drop)]
pub(crate) struct Plain<'a, R: Files> {
    pub rt: &'a R,
    pub path: &'a str,
    /// Owner, group and mode of the file that is there.
    pub old: Option<Metadata>,
    /// Whether the new file has to be locked.
    pub must_lock: bool,
    pub beside: Option<Beside<R::File>>,
    /// The file that took the place.
    pub there: Option<Written<R::File>>,
}

/// A temporary file, which is open.
#[derive(Drop)]
pub(crate) struct Beside<F> {
    pub name: String,
    pub written: Written<F>,
}

impl<'a, R: Files + AllocGlobal> Plain<'a, R>
where
    R::File: OwnFile,
{
    /// Creates the temporary file under the first name that is free, and locks it. If there is an
    /// old file, only the owner of the new one may use it.
    fn new_beside(&self) -> io::Result<Beside<R::File>>
        ensures locked { IfOk result (λ b. self.now.must_lock ≡ true
            → spec.is_held R.File.is_locked b.written ≡ true) }
    {
        let mut options = OpenOptions::new();
        options.write(true).create_new(true);
        if let Some(old) = &self.old {
            options.mode(old.permissions().mode() & OWNERS);
        }
        for number in 1..=NAMES {
            let name = name_beside(self.rt, self.path, number)?;
            match options.open(self.rt, name.as_str()) {
                Err(error) if error.kind() == ErrorKind::AlreadyExists => {}
                Err(error) => return Err(error),
                Ok(file) => {
                    if let Some(written) = self.locked(name.as_str(), file)? {
                        return Ok(Beside { name, written });
                    }
                }
            }
        }
        Err(io::Error::from(ErrorKind::AlreadyExists))
    }

    /// Locks the temporary file. Returns None if another run has removed it. If it can't be locked,
    /// it is used without a lock, unless it has to be locked: then it is removed.
    fn locked(&self, name: &str, file: R::File) -> io::Result<Option<Written<R::File>>>
        ensures locked { IfOk result (λ o. IfSome o (λ w. self.now.must_lock ≡ true
            → spec.is_held R.File.is_locked w ≡ true)) }
    {
        let mut file = file;
        let locked = file.lock();
        match locked {
            Ok(()) => match is_at(self.rt, name, &file) {
                Ok(true) => Ok(Some(Written {
                    file,
                    is_locked: true,
                })),
                _ => Ok(None),
            },
            Err(error) if self.must_lock => {
                let _ = fs::remove_file(self.rt, name);
                Err(error)
            }
            Err(_) => Ok(Some(Written {
                file,
                is_locked: false,
            })),
        }
    }

    /// Gives the temporary file the owner, the group and then the mode of the old file.
    fn pass_on(&self, name: &str, file: &R::File) -> io::Result<()> {
        let Some(old) = &self.old else {
            return Ok(());
        };
        let new = file.metadata()?;
        if new.uid() != old.uid() || new.gid() != old.gid() {
            lchown(self.rt, name, Some(old.uid()), Some(old.gid()))?;
        }
        file.set_permissions(old.permissions())
    }

    /// Writes the bytes to the temporary file, and flushes it to the device.
    fn fill(&self, beside: &mut Beside<R::File>, bytes: &[u8]) -> io::Result<()>
        ensures has { OnOk result (R.File.has beside.new.written.file bytes.now ≡ true) }
        ensures flushed { OnOk result (R.File.is_flushed beside.new.written.file ≡ true) }
        ensures locked { spec.is_held R.File.is_locked beside.new.written
            ≡ spec.is_held R.File.is_locked beside.old.written }
    {
        let file = &mut beside.written.file;
        file.begin()?;
        file.add(bytes)?;
        self.pass_on(beside.name.as_str(), &beside.written.file)?;
        beside.written.file.flush_all()
    }
}

impl<'a, R: Files + AllocGlobal> Place for Plain<'a, R>
where
    R::File: OwnFile,
{
    ghost holds = { λ p bytes.
        option_map_or (λ w. R.File.has w.file bytes) p.there false };

    ghost beside = { λ p bytes.
        option_map_or (λ b. R.File.has b.written.file bytes) p.beside false };

    ghost is_left = { λ p. is_some p.beside };

    ghost is_flushed = { λ p.
        option_map_or (λ b. R.File.is_flushed b.written.file) p.beside false };

    ghost needs_lock = { λ p. p.must_lock };

    ghost is_locked = { λ p. option_map_or (spec.is_held R.File.is_locked) p.there false };

    ghost is_locked_beside = { λ p.
        option_map_or (λ b. spec.is_held R.File.is_locked b.written) p.beside false };

    fn write_beside(&mut self, bytes: &[u8]) -> io::Result<()> {
        remove_leftovers(self.rt, self.path)?;
        let mut beside = self.new_beside()?;
        let filled = self.fill(&mut beside, bytes);
        self.beside = Some(beside);
        filled
    }

    fn take_over(&mut self) -> io::Result<()> {
        let Some(beside) = &self.beside else {
            return Err(io::Error::from(ErrorKind::NotFound));
        };
        fs::rename(self.rt, beside.name.as_str(), self.path)?;
        if let Some(beside) = self.beside.take() {
            self.there = Some(beside.written);
        }
        // The file is in its place: that its folder couldn't be flushed is no error any more.
        let _ = flush_folder(self.rt, folder_of(self.path));
        Ok(())
    }

    fn clear_beside(&mut self) {
        if let Some(beside) = self.beside.take() {
            let _ = fs::remove_file(self.rt, beside.name.as_str());
        }
    }
}

/// Flushes the names in a folder to the device. An empty path is the current folder.
pub fn flush_folder<R: Files>(rt: &R, folder: &str) -> io::Result<()> {
    let folder = if folder.is_empty() { "." } else { folder };
    fs::open(rt, folder)?.sync_all()
}

/// Returns the path of the folder that has the file; it is empty for the current folder.
pub fn folder_of(path: &str) -> &str {
    match path.rsplit_once('/') {
        None => "",
        Some(("", _)) => "/",
        Some((folder, _)) => folder,
    }
}
