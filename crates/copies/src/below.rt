//! A folder of the file system for copies.

ghost use Rattle.std.specs.Prelude.{◌≡◌, [], IfOk, false, is_none, is_some, string_bytes, true};
ghost use Rattle.std.specs.Option.{option_map_or};
ghost use Rattle.copies.specs.Open as spec;

use crate::destination::Destination;
use crate::standing::Compared;
use crate::temporary::{Own, own_folder, remove_leftovers};
use folder::{Sink, open_plain, path_below};
use std::alloc::{AllocError, Global};
use std::collections::BTreeSet;
use std::fs::{self, OpenOptions};
use std::io::{self, ErrorKind};
use std::rt::Files;
use system::{Closed, OwnFile, Temporary, flush_folder, folder_of};

/// A folder of the file system, which is made if it isn't there. The temporary files are in a new
/// folder directly below it, which only its owner may use: `.tufcheck.N.new`, with the first N from
/// 1 that is free.
#[derive(Drop)]
pub struct Below<'a, R: Files> {
    rt: &'a R,
    folder: String,
    /// The lowest folder of its path that was there before its first temporary file.
    top: Option<String>,
    /// The folder of the temporary files, once it was made.
    own: Option<Own<R::File>>,
    /// How many temporary files were made.
    count: u64,
    /// The folders in which a copy may be moved: those of the paths whose copy isn't known to stay,
    /// and if there were other runs, those of all paths.
    changed: Option<BTreeSet<String>>,
    /// Whether the folders of the copies are flushed.
    is_flushed: bool,
    /// Whether the folders that ended runs have left were removed.
    is_cleared: bool,
    /// Whether there were other runs, which may have moved copies and not flushed their folders, or
    /// a folder couldn't be noted.
    had_others: bool,
}

/// An open file: one that is written, or one that is there and is compared.
#[derive(Drop)]
enum Open<F> {
    Written(F),
    Compared(F),
}

/// A temporary file of the file system, or a copy that is there already.
#[derive(Drop)]
pub struct NewFile<F: OwnFile + Compared> {
    alloc: Global,
    path: String,
    /// The open file, until it was closed, a piece of it couldn't be written, or it was seen to
    /// have other bytes.
    file: Option<Open<F>>,
    /// What is left of it once it was written.
    closed: Option<F::Closed>,
    /// What is left of it once it was seen to have the same bytes.
    whole: Option<F::Whole>,
}

impl<F: OwnFile + Compared + Drop> Sink for NewFile<F> {
    ghost took = { λ f bytes. option_map_or (λ o. spec.took F.has F.began o bytes) f.file true };

    fn take(&mut self, piece: &[u8]) {
        let goes_on = match &mut self.file {
            None => true,
            Some(Open::Written(file)) => file.add(piece).is_ok(),
            Some(Open::Compared(file)) => matches!(file.goes_on(self.alloc, piece), Ok(true)),
        };
        if !goes_on {
            self.file = None;
        }
    }
}

impl<F: OwnFile + Compared + Drop> Temporary for NewFile<F> {
    ghost is_lost = { λ f. is_none f.file };

    ghost wrote = { λ f bytes. option_map_or (λ c. F.Closed.has c bytes) f.closed
        (option_map_or (λ w. F.Whole.has w bytes) f.whole false) };

    fn path(&self) -> &str {
        self.path.as_str()
    }
}

impl<'a, R: Files> Below<'a, R> {
    /// Returns the folder of that path. Nothing is made yet.
    pub fn new(rt: &'a R, folder: String) -> Below<'a, R>
        ensures folder { result.folder ≡ folder }
    {
        Below {
            rt,
            folder,
            top: None,
            own: None,
            count: 0,
            changed: None,
            is_flushed: false,
            is_cleared: false,
            had_others: false,
        }
    }

    /// Returns the lowest folder of the path that was there before this run.
    fn top(&self) -> &str {
        let folder = self.folder.as_str();
        self.top.as_ref().map_or(folder, |top| top.as_str())
    }

    /// Returns whether a copy may be moved in the folder.
    fn may_change(&self, folder: &str) -> bool {
        match &self.changed {
            Some(changed) => self.had_others || changed.contains(folder),
            None => self.had_others,
        }
    }

    /// Notes that a copy may be moved to the place.
    fn note(&mut self, alloc: Global, place: &str) -> Result<(), AllocError>
        ensures folder { self.new.folder ≡ self.old.folder }
    {
        let folder = folder_of(place);
        let mut changed = match self.changed.take() {
            Some(changed) => changed,
            None => BTreeSet::new(alloc),
        };
        let noted = add_folder(alloc, &mut changed, folder);
        self.changed = Some(changed);
        noted
    }

    /// Returns the folders of the stored copies in which a copy may be moved, and those above them
    /// up to the lowest one that was there before.
    fn folders_of(
        &self,
        alloc: Global,
        paths: &[String],
        stored: &[bool],
    ) -> Result<BTreeSet<String>, AllocError> {
        let mut folders = BTreeSet::new(alloc);
        for (path, is_stored) in paths.iter().zip(stored.iter()) {
            if *is_stored {
                let place = path_below(alloc, self.folder.as_str(), path.as_str())?;
                let folder = folder_of(place.as_str());
                if self.may_change(folder) {
                    add_folders(alloc, &mut folders, folder, self.top())?;
                }
            }
        }
        Ok(folders)
    }

    /// Returns the folders in which a copy may be moved, and those above them up to the lowest one
    /// that was there before.
    fn begun_folders(&self, alloc: Global) -> Result<BTreeSet<String>, AllocError> {
        let mut folders = BTreeSet::new(alloc);
        let Some(changed) = &self.changed else {
            return Ok(folders);
        };
        for folder in changed {
            add_folders(alloc, &mut folders, folder.as_str(), self.top())?;
        }
        Ok(folders)
    }

    /// Flushes the folders in which a copy may have been moved before the run failed: the next run
    /// finds the copy there, and doesn't flush its folder. Does no more if out of memory.
    fn flush_begun(&self, alloc: Global) {
        let Ok(folders) = self.begun_folders(alloc) else {
            return;
        };
        for folder in &folders {
            let _ = flush_folder(self.rt, folder.as_str());
        }
    }
}

impl<'a, R: Files> Below<'a, R>
where
    R::File: OwnFile + Compared,
{
    /// Removes the folders that ended runs have left, unless that was done.
    fn clear_leftovers(&mut self, alloc: Global) -> io::Result<()>
        ensures folder { self.new.folder ≡ self.old.folder }
    {
        if self.is_cleared {
            return Ok(());
        }
        self.had_others = remove_leftovers(self.rt, alloc, self.folder.as_str())?;
        self.is_cleared = true;
        Ok(())
    }

    /// Opens the copy at the place, if it is a plain file of that length with this name alone.
    fn open_there(
        &self,
        alloc: Global,
        place: String,
        length: u64,
    ) -> Result<NewFile<R::File>, String>
        ensures empty { IfOk result (λ file. option_map_or
            (λ o. spec.took R.File.has R.File.began o []) file.file true ≡ true) }
    {
        let mut options = OpenOptions::new();
        options.read(true);
        let Ok(mut file) = open_plain(self.rt, place.as_str(), &options) else {
            return Err(place);
        };
        if !matches!(file.may_be(length), Ok(true)) {
            return Err(place);
        }
        Ok(NewFile {
            alloc,
            path: place,
            file: Some(Open::Compared(file)),
            closed: None,
            whole: None,
        })
    }

    /// Notes that another file may be moved to the place of the copy.
    fn note_other(&mut self, file: &NewFile<R::File>)
        ensures folder { self.new.folder ≡ self.old.folder }
    {
        if self.note(file.alloc, file.path.as_str()).is_err() {
            self.had_others = true;
        }
    }
}

/// Adds the folder, and those above it up to `top`.
fn add_folders(
    alloc: Global,
    folders: &mut BTreeSet<String>,
    folder: &str,
    top: &str,
) -> Result<(), AllocError> {
    let mut folder = folder;
    for _ in 0..=folder.len() {
        if folders.contains(folder) {
            return Ok(());
        }
        add_folder(alloc, folders, folder)?;
        if folder == top {
            return Ok(());
        }
        folder = folder_of(folder);
    }
    Ok(())
}

/// Adds the folder, unless it is there.
fn add_folder(
    alloc: Global,
    folders: &mut BTreeSet<String>,
    folder: &str,
) -> Result<(), AllocError> {
    if !folders.contains(folder) {
        folders.insert(String::from_str(alloc, folder)?)?;
    }
    Ok(())
}

/// Returns the lowest folder of the path that is there; it is empty for the current one.
fn lowest_there<R: Files>(rt: &R, alloc: Global, path: &str) -> Result<String, AllocError> {
    let mut folder = path;
    for _ in 0..path.len() {
        if fs::metadata(rt, folder).is_ok() {
            return String::from_str(alloc, folder);
        }
        folder = folder_of(folder);
    }
    String::from_str(alloc, folder)
}

impl<'a, R: Files> Destination for Below<'a, R>
where
    R::File: OwnFile + Compared,
{
    type Temporary = NewFile<R::File>;

    ghost site = { λ b. record {
      path = string_bytes b.folder;
      blocks = λ _. true;
      fails = true;
    } };

    ghost is_left = { λ b. is_some b.own };

    ghost is_flushed = { λ b. b.is_flushed };

    fn begin(&mut self, alloc: Global) -> io::Result<NewFile<R::File>> {
        if self.own.is_none() {
            self.clear_leftovers(alloc)?;
            let folder = self.folder.as_str();
            self.top = Some(lowest_there(self.rt, alloc, folder)?);
            self.own = Some(own_folder(self.rt, alloc, folder)?);
        }
        let Some(folder) = &self.own else {
            return Err(io::Error::from(ErrorKind::NotFound));
        };
        self.count = self.count.saturating_add(1);
        let number = format!(in alloc; "{}", self.count)?;
        let path = path_below(alloc, folder.path(), number.as_str())?;
        let mut options = OpenOptions::new();
        options.write(true).create_new(true);
        let mut file = options.open(self.rt, path.as_str())?;
        file.begin()?;
        Ok(NewFile {
            alloc,
            path,
            file: Some(Open::Written(file)),
            closed: None,
            whole: None,
        })
    }

    fn standing(
        &mut self,
        alloc: Global,
        path: &str,
        length: u64,
    ) -> io::Result<Option<NewFile<R::File>>> {
        self.clear_leftovers(alloc)?;
        let path = path_below(alloc, self.folder.as_str(), path)?;
        if self.had_others {
            self.note(alloc, path.as_str())?;
        }
        match self.open_there(alloc, path, length) {
            Ok(file) => Ok(Some(file)),
            Err(path) => {
                self.note(alloc, path.as_str())?;
                Ok(None)
            }
        }
    }

    fn finish(&mut self, file: &mut NewFile<R::File>) -> io::Result<()> {
        let Some(Open::Written(written)) = file.file.take() else {
            return Err(io::Error::from(ErrorKind::Other));
        };
        file.closed = Some(written.close()?);
        Ok(())
    }

    fn is_same(&mut self, file: &mut NewFile<R::File>) -> bool {
        let Some(Open::Compared(there)) = file.file.take() else {
            self.note_other(file);
            return false;
        };
        let Ok(Some(whole)) = there.whole() else {
            self.note_other(file);
            return false;
        };
        file.closed = None;
        file.whole = Some(whole);
        true
    }

    fn place_for(&self, alloc: Global, path: &str) -> io::Result<String> {
        let place = path_below(alloc, self.folder.as_str(), path)?;
        let folder = folder_of(place.as_str());
        // A folder in which all copies stay is there.
        if self.may_change(folder) {
            fs::create_dir_all(self.rt, folder)?;
        }
        Ok(place)
    }

    fn flush(&mut self, alloc: Global, paths: &[String], stored: &[bool]) -> io::Result<()> {
        let folders = self.folders_of(alloc, paths, stored)?;
        for folder in &folders {
            flush_folder(self.rt, folder.as_str())?;
        }
        self.is_flushed = true;
        Ok(())
    }

    fn discard(&mut self, file: NewFile<R::File>) {
        let _ = fs::remove_file(self.rt, file.path.as_str());
    }

    fn clear(&mut self, alloc: Global) {
        if !self.is_flushed {
            self.flush_begun(alloc);
        }
        if let Some(folder) = self.own.take() {
            folder.remove(self.rt, alloc);
        }
    }
}
