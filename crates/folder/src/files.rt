//! Folders of files, and what is read from them.

ghost use Rattle.std.specs.Prelude.{◌≡◌, List, ℕ, Bool, IsTrue, true};
ghost use Rattle.std.specs.Prelude.{All, IfOk, IfErr, IfSome, OnOk, map, string_bytes};
ghost use Rattle.folder.specs.Folders.{AddsFile, Giving, HasFailed, IsLoaded, IsSameFolder};
ghost use Rattle.folder.specs.Measures.{IsMeasureOf, IsMeasuredIn};
ghost use Rattle.folder.specs.Passing.{IsPassedOn};
ghost use Rattle.folder.specs.Seen.{IsStartOf};
ghost use Rattle.folder.specs.declared.files.LoadFault.TheVariants as fault;

use crate::job::{Done, Job};
use crate::measure::{Measure, Need};
use crate::sink::Sink;
use crate::start::cut;
use std::alloc::{AllocError, AllocFailed, Global};
use std::collections::BTreeMap;
use thiserror::Error;

/// Why a folder can't be read.
#[derive(Clone, Copy, Debug, PartialEq, Eq, Error)]
pub enum LoadFault {
    /// A call of the folder failed.
    #[error("the folder can't be read")]
    Folder,
    /// Out of memory.
    #[error("out of memory")]
    NoMemory,
}

impl From<AllocError> for LoadFault {
    ghost from_gives = { λ _ e. e ≡ fault.NoMemory };

    fn from(_error: AllocError) -> LoadFault {
        LoadFault::NoMemory
    }
}

impl<T: Drop> From<AllocFailed<T>> for LoadFault {
    ghost from_gives = { λ _ e. e ≡ fault.NoMemory };

    fn from(_error: AllocFailed<T>) -> LoadFault {
        LoadFault::NoMemory
    }
}

/// Files by name. What may be listed and read is the folder's meaning, which no call changes.
pub trait Folder {
    /// What may be listed and read, and how many calls failed.
    ghost gives: { Self → Giving };

    /// Returns the names of all files. Fails with `Folder`, which counts as a failed call, or with
    /// `NoMemory`.
    fn names(&mut self, alloc: Global) -> Result<Vec<String>, LoadFault>
        ensures given { IfOk result
            (λ names. (gives self.old).lists (map string_bytes names.items) ≡ true) }
        ensures failed { IfErr result
            (λ e. e ≡ fault.Folder → HasFailed (gives self.old) (gives self.new)) }
        ensures same { IsSameFolder (gives self.old) (gives self.new) };

    /// Reads the file of that name. Fails with `Folder`, which counts as a failed call, or with
    /// `NoMemory`.
    fn read(&mut self, alloc: Global, name: &str) -> Result<Vec<u8>, LoadFault>
        ensures given { IfOk result (λ bytes. (gives self.old).holds name.now bytes.items ≡ true) }
        ensures failed { IfErr result
            (λ e. e ≡ fault.Folder → HasFailed (gives self.old) (gives self.new)) }
        ensures same { IsSameFolder (gives self.old) (gives self.new) };

    /// Reads the first `up_to` bytes of the file of that name, or all if it has no more. Fails with
    /// `Folder`, which counts as a failed call, or with `NoMemory`.
    fn read_start(&mut self, alloc: Global, name: &str, up_to: u64) -> Result<Vec<u8>, LoadFault>
        ensures given { IfOk result
            (λ bytes. IsStartOf ((gives self.old).holds name.now) up_to bytes.items) }
        ensures failed { IfErr result
            (λ e. e ≡ fault.Folder → HasFailed (gives self.old) (gives self.new)) }
        ensures same { IsSameFolder (gives self.old) (gives self.new) }
    {
        let mut bytes = self.read(alloc, name)?;
        cut(&mut bytes, up_to);
        Ok(bytes)
    }

    /// Measures the file of that name, which is read once. Fails with `Folder`, which counts as a
    /// failed call, or with `NoMemory`.
    fn measure(&mut self, alloc: Global, name: &str, need: Need) -> Result<Measure, LoadFault>
        ensures given { IfOk result (IsMeasureOf need ((gives self.old).holds name.now)) }
        ensures failed { IfErr result
            (λ e. e ≡ fault.Folder → HasFailed (gives self.old) (gives self.new)) }
        ensures same { IsSameFolder (gives self.old) (gives self.new) }
    {
        let bytes = self.read(alloc, name)?;
        Ok(Measure::of(need, bytes.as_slice()))
    }

    /// Measures the file in the same way, and passes all bytes that are measured to the sink. If it
    /// fails, the sink may have taken some of them.
    fn measure_into<K: Sink>(
        &mut self,
        alloc: Global,
        name: &str,
        need: Need,
        sink: &mut K,
    ) -> Result<Measure, LoadFault>
        ensures given { IfOk result (IsPassedOn need ((gives self.old).holds name.now)
            (K.took sink.old) (K.took sink.new)) }
        ensures failed { IfErr result
            (λ e. e ≡ fault.Folder → HasFailed (gives self.old) (gives self.new)) }
        ensures same { IsSameFolder (gives self.old) (gives self.new) }
    {
        let bytes = self.read_start(alloc, name, need.up_to)?;
        sink.take(bytes.as_slice());
        Ok(Measure::of(need, bytes.as_slice()))
    }

    /// Measures the file in the same way for a thread that shares the folder with others. Returns
    /// None if a shared folder can't be read or the call fails, and doesn't count a failure.
    fn measure_shared(&self, alloc: Global, name: &str, need: Need) -> Option<Measure>
        ensures given { IfSome result (IsMeasureOf need ((gives self.now).holds name.now)) }
    {
        None
    }

    /// Measures the files of these jobs in the same way, as `measure_shared` would each, the last
    /// job first. Returns those that were measured.
    fn measure_many(&self, alloc: Global, jobs: Vec<Job>) -> Vec<Done>
        ensures given { All (IsMeasuredIn (gives self.now).holds) result.items }
    {
        let mut jobs = jobs;
        let mut done = Vec::new(alloc);
        'jobs: while let Some(job) = jobs.pop() {
            let Job { name, need } = job;
            if let Some(measure) = self.measure_shared(alloc, name.as_str(), need) {
                add(
                    &mut done,
                    Done {
                        name,
                        need,
                        measure,
                    },
                );
            }
        }
        done
    }

    /// Returns the number of failed calls, up to 2^64 - 1.
    fn failed(&self) -> u64
        ensures count { result ≡ (gives self.now).failures };
}

/// Adds a file that was measured, unless out of memory.
fn add(all: &mut Vec<Done>, done: Done)
    ensures { (holds : List ℕ → List ℕ → Bool) → IsMeasuredIn holds done
        → All (IsMeasuredIn holds) all.old.items → All (IsMeasuredIn holds) all.new.items }
{
    all.push(done).ok();
}

/// A folder behind a reference.
impl<F: Folder> Folder for &mut F {
    ghost gives = { λ s. F.gives s.now };

    fn names(&mut self, alloc: Global) -> Result<Vec<String>, LoadFault> {
        (**self).names(alloc)
    }

    fn read(&mut self, alloc: Global, name: &str) -> Result<Vec<u8>, LoadFault> {
        (**self).read(alloc, name)
    }

    fn read_start(&mut self, alloc: Global, name: &str, up_to: u64) -> Result<Vec<u8>, LoadFault> {
        (**self).read_start(alloc, name, up_to)
    }

    fn measure(&mut self, alloc: Global, name: &str, need: Need) -> Result<Measure, LoadFault> {
        (**self).measure(alloc, name, need)
    }

    fn measure_into<K: Sink>(
        &mut self,
        alloc: Global,
        name: &str,
        need: Need,
        sink: &mut K,
    ) -> Result<Measure, LoadFault> {
        (**self).measure_into(alloc, name, need, sink)
    }

    fn measure_shared(&self, alloc: Global, name: &str, need: Need) -> Option<Measure> {
        (**self).measure_shared(alloc, name, need)
    }

    fn measure_many(&self, alloc: Global, jobs: Vec<Job>) -> Vec<Done> {
        (**self).measure_many(alloc, jobs)
    }

    fn failed(&self) -> u64 {
        (**self).failed()
    }
}

/// Reads all files of a folder, by name: each name of one list that `names` may return, with bytes
/// that `read` may return for it. The names come from the folder alone. Fails with `Folder` only if
/// a call of the folder failed, or with `NoMemory`.
#[tactic(auto, using(crate::proofs::Loading::one_more, crate::proofs::Sameness::sameness))]
pub fn load<F: Folder>(
    alloc: Global,
    folder: &mut F,
) -> Result<BTreeMap<String, Vec<u8>>, LoadFault>
    ensures files { IfOk result (IsLoaded (F.gives folder.old).lists (F.gives folder.old).holds) }
    ensures failed { IfErr result (λ e. e ≡ fault.Folder
        → HasFailed (F.gives folder.old) (F.gives folder.new)) }
    ensures same { IsSameFolder (F.gives folder.old) (F.gives folder.new) }
{
    let names = folder.names(alloc)?;
    let mut files = BTreeMap::new(alloc);
    for name in names {
        add_file(alloc, folder, name, &mut files)?;
    }
    Ok(files)
}

/// Reads the file of that name, and stores its bytes under the name.
#[tactic(auto, using(std::proofs::lemmas::Map::Text::text_keys))]
fn add_file<F: Folder>(
    alloc: Global,
    folder: &mut F,
    name: String,
    files: &mut BTreeMap<String, Vec<u8>>,
) -> Result<(), LoadFault>
    ensures added { OnOk result
        (AddsFile (F.gives folder.old).holds (string_bytes name) files.old files.new) }
    ensures failed { IfErr result (λ e. e ≡ fault.Folder
        → HasFailed (F.gives folder.old) (F.gives folder.new)) }
    ensures same { IsSameFolder (F.gives folder.old) (F.gives folder.new) }
{
    let bytes = folder.read(alloc, name.as_str())?;
    files.insert(name, bytes)?;
    Ok(())
}
