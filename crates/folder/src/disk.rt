//! Folders of the file system.

ghost use Rattle.std.specs.Prelude.{◌≡◌, ◌≤◌, ◌↔◌, true, List, ℕ, Bool, IfOk, None, Some};
ghost use Rattle.std.specs.Prelude.{length, string_bytes};
ghost use Rattle.std.specs.IoError.{error_kind};
ghost use Rattle.folder.specs.Folders as spec;
ghost use Rattle.folder.specs.Measures.{IsMeasure};
ghost use Rattle.folder.specs.Passing.{IsPassedOn};

use crate::files::{Folder, LoadFault};
use crate::job::{Done, Job};
use crate::measure::{Measure, Need};
use crate::plain::{PlainFile, open_to_read};
use crate::sink::{Sink, measure_and_pass};
use crate::start::start_of_reader;
use crate::stream::Opener;
use crate::together::measure_jobs;
use std::alloc::{AllocError, Global};
use std::fs;
use std::io::{self, ErrorKind};
use std::marker::Model;
use std::rt::Files;

/// Whether the folders below a folder are read too.
#[derive(Clone, Copy, Debug, PartialEq, Eq)]
pub enum Depth {
    /// Only the files directly in the folder.
    Here,
    /// All files below the folder, by their paths below it, with `/` between the parts.
    Below,
}

/// The plain files of a folder of the file system. The folder itself may be a link. Links, pipes
/// and devices in it are skipped, and a name that isn't UTF-8 is a fault. Contracts allow any list
/// and any bytes, since other programs write there too.
#[derive(Drop)]
pub struct Disk<'a, R> {
    rt: &'a R,
    path: String,
    depth: Depth,
    faults: u64,
}

impl<'a, R> Model for Disk<'a, R> {
    ghost use Rattle.std.specs.Prelude.{string_bytes};
    ghost use Rattle.folder.specs.Folders as spec;

    ghost Value = { spec.Disk };

    ghost view = { λ d. record { path = string_bytes d.path; depth = d.depth; faults = d.faults } };
}

impl<'a, R> Disk<'a, R> {
    /// Returns the folder of that path. No call has failed yet.
    pub fn new(rt: &'a R, path: String, depth: Depth) -> Disk<'a, R>
        ensures fresh { result ≡ record { path = string_bytes path; depth = depth; faults = 0 } }
    {
        Disk {
            rt,
            path,
            depth,
            faults: 0,
        }
    }
}

impl<'a, R: Files + AllocGlobal + Clone + Drop> Folder for Disk<'a, R> {
    ghost gives = { λ s. record {
      lists = λ _. true;
      holds = λ _ _. true;
      failures = s.faults;
      place = Some s.path;
    } };

    fn names(&mut self, alloc: Global) -> Result<Vec<String>, LoadFault> {
        match all_names(self.rt, alloc, self.path.as_str(), self.depth) {
            Ok(names) => Ok(names),
            Err(error) => {
                self.faults = self.faults.saturating_add(1);
                Err(fault_of(&error))
            }
        }
    }

    fn read(&mut self, alloc: Global, name: &str) -> Result<Vec<u8>, LoadFault> {
        self.read_start(alloc, name, u64::MAX)
    }

    fn read_start(&mut self, alloc: Global, name: &str, up_to: u64) -> Result<Vec<u8>, LoadFault> {
        let path = path_below(alloc, self.path.as_str(), name)?;
        match start_of_file(self.rt, alloc, path.as_str(), up_to) {
            Ok(bytes) => Ok(bytes),
            Err(error) => {
                self.faults = self.faults.saturating_add(1);
                Err(fault_of(&error))
            }
        }
    }

    fn measure(&mut self, alloc: Global, name: &str, need: Need) -> Result<Measure, LoadFault> {
        let path = path_below(alloc, self.path.as_str(), name)?;
        match measure_file(self.rt, alloc, path.as_str(), need) {
            Ok(measure) => Ok(measure),
            Err(error) => {
                self.faults = self.faults.saturating_add(1);
                Err(fault_of(&error))
            }
        }
    }

    fn measure_into<K: Sink>(
        &mut self,
        alloc: Global,
        name: &str,
        need: Need,
        sink: &mut K,
    ) -> Result<Measure, LoadFault> {
        let path = path_below(alloc, self.path.as_str(), name)?;
        match pass_file(self.rt, alloc, path.as_str(), need, sink) {
            Ok(measure) => Ok(measure),
            Err(error) => {
                self.faults = self.faults.saturating_add(1);
                Err(fault_of(&error))
            }
        }
    }

    fn measure_shared(&self, alloc: Global, name: &str, need: Need) -> Option<Measure> {
        let path = path_below(alloc, self.path.as_str(), name).ok()?;
        measure_file(self.rt, alloc, path.as_str(), need).ok()
    }

    fn measure_many(&self, alloc: Global, jobs: Vec<Job>) -> Vec<Done> {
        measure_jobs(alloc, self, jobs)
    }

    fn failed(&self) -> u64 {
        self.faults
    }
}

impl<'a, R: Files> Opener for Disk<'a, R> {
    type File = PlainFile<R::File>;

    ghost content = { λ _ _. None };

    fn open(&self, alloc: Global, name: &str) -> io::Result<PlainFile<R::File>> {
        let path = path_below(alloc, self.path.as_str(), name)?;
        open_to_read(self.rt, path.as_str())
    }
}

/// Reads the first `up_to` bytes of the file of that path.
fn start_of_file<R: Files>(rt: &R, alloc: Global, path: &str, up_to: u64) -> io::Result<Vec<u8>>
    ensures { IfOk result (λ start. length start.items ≤ up_to) }
{
    let mut file = open_to_read(rt, path)?;
    start_of_reader(alloc, &mut file, up_to)
}

/// Measures the file of that path.
fn measure_file<R: Files>(rt: &R, alloc: Global, path: &str, need: Need) -> io::Result<Measure>
    ensures { IfOk result (IsMeasure need) }
{
    let mut file = open_to_read(rt, path)?;
    Measure::of_reader(alloc, need, &mut file)
}

/// Measures the file of that path, and passes its bytes on.
fn pass_file<R: Files, K: Sink>(
    rt: &R,
    alloc: Global,
    path: &str,
    need: Need,
    sink: &mut K,
) -> io::Result<Measure>
    ensures passed { IfOk result
        (IsPassedOn need (λ _. true) (K.took sink.old) (K.took sink.new)) }
{
    let mut file = open_to_read(rt, path)?;
    measure_and_pass(alloc, need, &mut file, sink)
}

fn fault_of(error: &io::Error) -> LoadFault
    ensures { (result ≡ LoadFault.NoMemory) ↔ (error_kind error.now ≡ ErrorKind.OutOfMemory) }
{
    if error.kind() == ErrorKind::OutOfMemory {
        LoadFault::NoMemory
    } else {
        LoadFault::Folder
    }
}

/// Returns the path of the name below the folder, with `/` between them unless the folder's path is
/// empty.
pub fn path_below(alloc: Global, folder: &str, name: &str) -> Result<String, AllocError>
    ensures path { IfOk result (λ path. string_bytes path
        ≡ spec.path_below folder.now name.now) }
{
    if folder.is_empty() {
        return String::from_str(alloc, name);
    }
    format!(in alloc; "{folder}/{name}")
}

/// Plain files and folders, by their paths below the first folder.
#[derive(Drop)]
struct Found {
    files: Vec<String>,
    folders: Vec<String>,
}

impl Found {
    /// Adds the files and folders directly in one folder.
    fn read<R: Files + AllocGlobal + Clone + Drop>(
        &mut self,
        rt: &R,
        top: &str,
        below: &str,
    ) -> io::Result<()> {
        let alloc: Global = rt.alloc();
        let path = path_below(alloc, top, below)?;
        for entry in fs::read_dir(rt, path.as_str())? {
            let entry = entry?;
            let kind = entry.file_type()?;
            let name = path_below(alloc, below, entry.file_name())?;
            if kind.is_file() {
                self.files.push(name)?;
            } else if kind.is_dir() {
                self.folders.push(name)?;
            }
        }
        Ok(())
    }
}

fn all_names<R: Files + AllocGlobal + Clone + Drop>(
    rt: &R,
    alloc: Global,
    top: &str,
    depth: Depth,
) -> io::Result<Vec<String>> {
    let mut found = Found {
        files: Vec::new(alloc),
        folders: Vec::new(alloc),
    };
    found.read(rt, top, "")?;
    if depth == Depth::Here {
        return Ok(found.files);
    }
    for _ in 0..u64::MAX {
        let Some(folder) = found.folders.pop() else {
            return Ok(found.files);
        };
        found.read(rt, top, folder.as_str())?;
    }
    Err(io::Error::from(ErrorKind::Other))
}
