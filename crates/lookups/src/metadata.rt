//! The metadata files of a folder, as far as they were looked up.

ghost use Rattle.std.specs.Prelude.{◌≡◌, ◌≤◌, ◌&&◌, false, not, IfErr, IfOk, IfSome, OnOk, map};
ghost use Rattle.std.specs.Prelude.{string_bytes};
ghost use Rattle.cycle.specs.Looked.{is_metadata_name as is_json, most_looked_at};
ghost use Rattle.cycle.specs.Workflow.{course};
ghost use Rattle.examine.specs.Checks.{file_in};
ghost use Rattle.folder.specs.Folders.{HasFailed, IsSameFolder};
ghost use Rattle.folder.specs.Seen.{IsStartOf};
ghost use Rattle.folder.specs.declared.files.LoadFault.TheVariants as fault;
ghost use Rattle.lookups.specs.Lookups as spec;
ghost use Rattle.lookups.specs.Lookups.{Grows, IsPart, IsSettledOn};

use crate::asked::Asked;
use cjson::NoMemory;
use cycle::{Course, Gate, Keeper, Repo, Round, Threading, Watch};
use folder::{Folder, LoadFault};
use needs::{Need, missing_metadata, names_of};
use std::alloc::{AllocError, Global};
use std::collections::BTreeMap;
use std::sync::Wait;
use std::thread::Threads;

/// Maximum number of bytes that are read of a metadata file: the greatest limit of any kind, and
/// one byte that shows that a file is over it.
const MOST_LOOKED_AT: u64 = 5_000_001;

/// Number of bytes that courses may examine before the last one, more or less.
const MOST_AGAIN: u64 = 32_000_000;

/// The names of a folder's files, and the metadata files that were read.
#[derive(Drop)]
pub struct Metadata {
    /// The names, as the folder lists them.
    pub names: Vec<String>,
    /// The same names.
    pub listed: BTreeMap<String, ()>,
    /// The metadata files that were read, of each at most the first 5,000,001 bytes, and no target
    /// files.
    pub repo: Repo,
}

impl Metadata {
    /// Lists the folder, and reads no file.
    #[tactic(auto, using(folder::proofs::Sameness::sameness))]
    pub fn list<F: Folder>(alloc: Global, folder: &mut F) -> Result<Metadata, LoadFault>
        ensures part { IfOk result (IsPart (F.gives folder.old)) }
        ensures failed { IfErr result (λ e. e ≡ fault.Folder
            → HasFailed (F.gives folder.old) (F.gives folder.new)) }
        ensures same { IsSameFolder (F.gives folder.old) (F.gives folder.new) }
    {
        let names = folder.names(alloc)?;
        Ok(Metadata::of_names(alloc, names)?)
    }

    /// Returns these names, with no files.
    fn of_names(alloc: Global, names: Vec<String>) -> Result<Metadata, AllocError>
        ensures names { IfOk result (λ m. m.names ≡ names) }
        ensures listed { IfOk result spec.HasNames }
        ensures none { IfOk result spec.HasNone }
    {
        let listed = names_of(alloc, copies_of(alloc, names.as_slice())?)?;
        let repo = Repo {
            metadata: BTreeMap::new(alloc),
            targets: BTreeMap::new(alloc),
        };
        Ok(Metadata {
            names,
            listed,
            repo,
        })
    }

    /// Follows the course of what is asked from the keeper's state, which stays as it is, on the
    /// metadata files of the folder: on those that were read, and reads those that it looked up and
    /// that the folder lists, until there is none.
    ///
    /// A course that lacks a file is followed again, from its beginning. Once 32,000,000 bytes were
    /// examined by such courses, the rest of the metadata files is read.
    #[tactic(auto, using(folder::proofs::Sameness::sameness))]
    pub fn follow<F: Folder, R: Threads + Wait + Sync, N: Gate + Watch + Sync>(
        &mut self,
        folder: &mut F,
        threading: &Threading<'_, R, N>,
        keeper: &mut Keeper,
        asked: &Asked<'_>,
    ) -> Result<Course, LoadFault>
        requires part { IsPart (F.gives folder.old) self.old }
        requires workers { asked.now.workers ≤ 64 }
        ensures part { OnOk result (IsPart (F.gives folder.old) self.new) }
        ensures grows { OnOk result (Grows self.old self.new) }
        ensures settled { IfOk result
            (IsSettledOn (spec.request_of keeper.old asked.now) self.new) }
        ensures state { keeper.new ≡ keeper.old }
        ensures failed { IfErr result (λ e. e ≡ fault.Folder
            → HasFailed (F.gives folder.old) (F.gives folder.new)) }
        ensures same { IsSameFolder (F.gives folder.old) (F.gives folder.new) }
    {
        let mut left = MOST_AGAIN;
        while left > 0 {
            if let Some(course) = self.follow_once(folder, threading, keeper, asked)? {
                return Ok(course);
            }
            left = left.saturating_sub(self.size());
        }
        self.read_rest(asked.alloc, folder)?;
        Ok(self.follow_on(threading, keeper, asked)?)
    }

    /// Follows the course on the files that were read. If it lacks files that the folder lists,
    /// reads these and returns None.
    #[tactic(auto, using(folder::proofs::Sameness::sameness))]
    fn follow_once<F: Folder, R: Threads + Wait + Sync, N: Gate + Watch + Sync>(
        &mut self,
        folder: &mut F,
        threading: &Threading<'_, R, N>,
        keeper: &mut Keeper,
        asked: &Asked<'_>,
    ) -> Result<Option<Course>, LoadFault>
        requires part { IsPart (F.gives folder.old) self.old }
        requires workers { asked.now.workers ≤ 64 }
        ensures part { OnOk result (IsPart (F.gives folder.old) self.new) }
        ensures grows { OnOk result (Grows self.old self.new) }
        ensures settled { IfOk result (λ o. IfSome o
            (IsSettledOn (spec.request_of keeper.old asked.now) self.new)) }
        ensures state { keeper.new ≡ keeper.old }
        ensures failed { IfErr result (λ e. e ≡ fault.Folder
            → HasFailed (F.gives folder.old) (F.gives folder.new)) }
        ensures same { IsSameFolder (F.gives folder.old) (F.gives folder.new) }
    {
        let course = self.follow_on(threading, keeper, asked)?;
        let before = keeper.trusted();
        let Ok(all) = missing_metadata(asked.alloc, before, &course, &self.repo.metadata) else {
            return Err(LoadFault::NoMemory);
        };
        if self.read_needed(asked.alloc, folder, all.as_slice())? {
            Ok(None)
        } else {
            Ok(Some(course))
        }
    }

    /// Follows the course on the files that were read.
    fn follow_on<R: Threads + Wait + Sync, N: Gate + Watch + Sync>(
        &self,
        threading: &Threading<'_, R, N>,
        keeper: &mut Keeper,
        asked: &Asked<'_>,
    ) -> Result<Course, LoadFault>
        requires workers { asked.now.workers ≤ 64 }
        ensures course { IfOk result (λ c. c ≡ course (spec.request_of keeper.old asked.now)
            (file_in self.now.repo.metadata)) }
        ensures state { keeper.new ≡ keeper.old }
        ensures memory { IfErr result (λ e. e ≡ fault.NoMemory) }
    {
        let round = Round {
            repo: &self.repo,
            now: asked.moment,
            wanted: asked.wanted,
        };
        match keeper.follow(&round, &asked.limits, threading, asked.workers) {
            Ok(course) => Ok(course),
            Err(NoMemory) => Err(LoadFault::NoMemory),
        }
    }

    /// Reads those of the needed files that the folder lists. Returns whether there was one.
    #[tactic(auto, using(folder::proofs::Sameness::sameness))]
    fn read_needed<F: Folder>(
        &mut self,
        alloc: Global,
        folder: &mut F,
        all: &[Need],
    ) -> Result<bool, LoadFault>
        requires part { IsPart (F.gives folder.old) self.old }
        ensures part { OnOk result (IsPart (F.gives folder.old) self.new) }
        ensures grows { OnOk result (Grows self.old self.new) }
        ensures none { IfOk result (λ found. found ≡ false
            → spec.HasNoneOf all.now self.old self.new) }
        ensures failed { IfErr result (λ e. e ≡ fault.Folder
            → HasFailed (F.gives folder.old) (F.gives folder.new)) }
        ensures same { IsSameFolder (F.gives folder.old) (F.gives folder.new) }
    {
        let mut found = false;
        for need in all {
            let is_read = self.read(alloc, folder, need.name.as_str())?;
            found = found | is_read;
        }
        Ok(found)
    }

    /// Reads the metadata files that the folder lists and that weren't read.
    #[tactic(auto, using(folder::proofs::Sameness::sameness))]
    fn read_rest<F: Folder>(&mut self, alloc: Global, folder: &mut F) -> Result<(), LoadFault>
        requires part { IsPart (F.gives folder.old) self.old }
        ensures part { OnOk result (IsPart (F.gives folder.old) self.new) }
        ensures grows { OnOk result (Grows self.old self.new) }
        ensures whole { OnOk result (spec.IsWhole self.new) }
        ensures failed { IfErr result (λ e. e ≡ fault.Folder
            → HasFailed (F.gives folder.old) (F.gives folder.new)) }
        ensures same { IsSameFolder (F.gives folder.old) (F.gives folder.new) }
    {
        for name in copies_of(alloc, self.names.as_slice())? {
            self.read(alloc, folder, name.as_str())?;
        }
        Ok(())
    }

    /// Reads the file of that name if it is a metadata file that the folder lists and wasn't read.
    /// Returns whether it was read now.
    fn read<F: Folder>(
        &mut self,
        alloc: Global,
        folder: &mut F,
        name: &str,
    ) -> Result<bool, LoadFault>
        requires part { IsPart (F.gives folder.old) self.old }
        ensures part { OnOk result (IsPart (F.gives folder.old) self.new) }
        ensures grows { OnOk result (Grows self.old self.new) }
        ensures done { OnOk result (spec.IsDone self.new name.now) }
        ensures none { IfOk result (λ found. found ≡ false → self.new ≡ self.old) }
        ensures failed { IfErr result (λ e. e ≡ fault.Folder
            → HasFailed (F.gives folder.old) (F.gives folder.new)) }
        ensures same { IsSameFolder (F.gives folder.old) (F.gives folder.new) }
    {
        if !self.is_due(name) {
            return Ok(false);
        }
        let key = String::from_str(alloc, name)?;
        let bytes = read_start(alloc, folder, name)?;
        put(&mut self.repo.metadata, key, bytes)?;
        Ok(true)
    }

    /// Returns whether the name is that of a metadata file that the folder lists and that wasn't
    /// read.
    fn is_due(&self, name: &str) -> bool
        ensures { result
            ≡ (spec.is_listed self.now name.now && not (spec.is_read self.now name.now)) }
    {
        if !self.is_listed(name) {
            return false;
        }
        !self.repo.metadata.contains_key(name)
    }

    /// Returns whether the folder lists a metadata file of that name.
    fn is_listed(&self, name: &str) -> bool
        ensures { result ≡ spec.is_listed self.now name.now }
    {
        if !self.listed.contains_key(name) {
            return false;
        }
        is_metadata_name(name)
    }

    /// Returns the number of bytes that were read, and one more.
    fn size(&self) -> u64
        ensures least { 1 ≤ result }
    {
        let mut size: u64 = 1;
        for (_, bytes) in &self.repo.metadata {
            size = size.saturating_add(bytes.len() as u64);
        }
        size
    }
}

/// Reads the file of that name, as far as the workflow looks at it, into no more room than it
/// needs.
#[tactic(auto, using(folder::proofs::Sameness::sameness))]
fn read_start<F: Folder>(alloc: Global, folder: &mut F, name: &str) -> Result<Vec<u8>, LoadFault>
    ensures given { IfOk result (λ bytes. IsStartOf
        ((F.gives folder.old).holds name.now) most_looked_at bytes.items) }
    ensures failed { IfErr result (λ e. e ≡ fault.Folder
        → HasFailed (F.gives folder.old) (F.gives folder.new)) }
    ensures same { IsSameFolder (F.gives folder.old) (F.gives folder.new) }
{
    let bytes = folder.read_start(alloc, name, MOST_LOOKED_AT)?;
    Ok(Vec::from_slice(alloc, bytes.as_slice())?)
}

/// Returns whether the name ends in `.json`.
#[tactic(auto, using(std::proofs::lemmas::Str::Pattern::ends_text))]
fn is_metadata_name(name: &str) -> bool
    ensures { result ≡ is_json name.now }
{
    name.ends_with(".json")
}

/// Returns copies of the names.
fn copies_of(alloc: Global, names: &[String]) -> Result<Vec<String>, AllocError>
    ensures { IfOk result (λ all. map string_bytes all.items ≡ map string_bytes names.now) }
{
    let mut all = Vec::new(alloc);
    for name in names {
        all.push(String::from_str(alloc, name.as_str())?)?;
    }
    Ok(all)
}

/// Stores the bytes under the name.
#[tactic(auto, using(std::proofs::lemmas::Map::Text::text_keys))]
fn put(
    files: &mut BTreeMap<String, Vec<u8>>,
    name: String,
    bytes: Vec<u8>,
) -> Result<(), AllocError>
    ensures { OnOk result (spec.Puts (string_bytes name) bytes files.old files.new) }
{
    files.insert(name, bytes)?;
    Ok(())
}
