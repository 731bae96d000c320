//! Repositories in folders of the file system.

ghost use Rattle.std.specs.Prelude.{◌≡◌, ◌≢◌, IfErr, IfOk, length, string_bytes};
ghost use Rattle.report.specs.Lines.{IsStatus};
ghost use Rattle.command.specs.Done.{IsCauseOf, IsNextOf, IsReplayedOf, IsVerifiedOf};
ghost use Rattle.replay.specs.Cycles as replay;
ghost use Rattle.update.specs.Causes as causes;
ghost use Rattle.update.specs.Fetching.{IsCauseOfNext};

use crate::runtime::{CountedFolders, Runtime};
use crate::subcommand::FolderPaths;
use failure::Failure;
use folder::{Depth, Disk, path_below};
use progress::Watched;
use replay::{Cycles, replay};
use std::alloc::AllocError;
use std::io::Write;
use std::sync::Wait;
use std::thread::Threads;
use system::Machine;
use update::{Folders, Host, Terms, Wants};

/// Verifies the repository in the folders.
#[tactic(auto, using(crate::proofs::Doing::quiet))]
pub fn verify_in<T: Threads + Wait + Sync, W: Write>(
    run: &Runtime<'_, T>,
    terms: &Terms<'_>,
    folders: FolderPaths<'_>,
    out: W,
) -> (Result<u8, Failure>, W)
    ensures known { IfOk result.0 IsStatus }
    ensures verified { IfOk result.0 (IsVerifiedOf terms.now folders.entry
        (W.contents out) (W.contents result.1)) }
    ensures quiet { IfErr result.0 (λ f. f ≢ Failure.Memory → f ≢ Failure.Output
        → W.contents result.1 ≡ W.contents out) }
    ensures cause { IfErr result.0 (λ f. IsCauseOf (λ w v. causes.IsCause terms.now w v f)
        (W.contents out) (W.contents result.1)) }
{
    let folders = match two_folders(run, folders) {
        Ok(folders) => folders,
        Err(error) => return (Err(Failure::from(error)), out),
    };
    let mut host = Host {
        system: Machine::new(run.host),
        folders,
        out,
    };
    let done = host.verify(&run.threading(), run.alloc, terms);
    (done, host.out)
}

/// Prints the names of the files that have to be fetched next.
#[tactic(auto, using(crate::proofs::Doing::quiet))]
pub fn next_in<T: Threads + Wait + Sync, W: Write>(
    run: &Runtime<'_, T>,
    wants: &Wants<'_>,
    folders: FolderPaths<'_>,
    out: W,
) -> (Result<u8, Failure>, W)
    ensures known { IfOk result.0 (λ status. status ≡ 0) }
    ensures listed { IfOk result.0 (IsNextOf wants.now folders.entry
        (W.contents out) (W.contents result.1)) }
    ensures quiet { IfErr result.0 (λ f. f ≢ Failure.Memory → f ≢ Failure.Output
        → W.contents result.1 ≡ W.contents out) }
    ensures cause { IfErr result.0 (λ f. IsCauseOf (λ w v. IsCauseOfNext wants.now w v f)
        (W.contents out) (W.contents result.1)) }
{
    let folders = match two_folders(run, folders) {
        Ok(folders) => folders,
        Err(error) => return (Err(Failure::from(error)), out),
    };
    let mut host = Host {
        system: Machine::new(run.host),
        folders,
        out,
    };
    let done = host.next(&run.threading(), run.alloc, wants);
    (done, host.out)
}

/// Returns the folders of these paths.
pub(crate) fn two_folders<'a, T>(
    run: &'a Runtime<'_, T>,
    folders: FolderPaths<'_>,
) -> Result<CountedFolders<'a>, AllocError>
    ensures metadata { IfOk result (λ f. f.metadata.path ≡ folders.entry.metadata.now) }
    ensures targets { IfOk result (λ f. f.targets.folder.path ≡ folders.entry.targets.now) }
{
    let metadata = String::from_str(run.alloc, folders.metadata)?;
    let targets = String::from_str(run.alloc, folders.targets)?;
    Ok(folders_of(run, metadata, targets))
}

/// Verifies the repositories, one after another.
#[tactic(auto, using(crate::proofs::Doing::quiet))]
pub fn replay_in<T: Threads + Wait + Sync, W: Write>(
    run: &Runtime<'_, T>,
    cycles: &Cycles<'_>,
    repositories: &[String],
    out: W,
) -> (Result<u8, Failure>, W)
    ensures known { IfOk result.0 IsStatus }
    ensures replayed { IfOk result.0 (IsReplayedOf cycles.now (length repositories.now)
        (W.contents out) (W.contents result.1)) }
    ensures quiet { IfErr result.0 (λ f. f ≢ Failure.Memory → f ≢ Failure.Output
        → W.contents result.1 ≡ W.contents out) }
    ensures cause { IfErr result.0 (λ f. IsCauseOf (λ w v. replay.IsCause cycles.now w v f)
        (W.contents out) (W.contents result.1)) }
{
    let folders = match all_folders(run, repositories) {
        Ok(folders) => folders,
        Err(error) => return (Err(Failure::from(error)), out),
    };
    let mut host = Host {
        system: Machine::new(run.host),
        folders,
        out,
    };
    let done = replay(&mut host, &run.threading(), run.alloc, cycles);
    (done, host.out)
}

/// Returns the two folders of each repository.
fn all_folders<'a, T>(
    run: &'a Runtime<'_, T>,
    repositories: &[String],
) -> Result<Vec<CountedFolders<'a>>, AllocError>
    ensures each { IfOk result (λ all. length all.items ≡ length repositories.now) }
{
    let mut all = Vec::new(run.alloc);
    for repository in repositories {
        let metadata = path_below(run.alloc, repository.as_str(), "metadata")?;
        let targets = path_below(run.alloc, repository.as_str(), "targets")?;
        all.push(folders_of(run, metadata, targets))?;
    }
    Ok(all)
}

/// Returns the folders of these paths, whose files are counted.
fn folders_of<'a, T>(
    run: &'a Runtime<'_, T>,
    metadata: String,
    targets: String,
) -> CountedFolders<'a>
    ensures metadata { result.metadata.path ≡ string_bytes metadata }
    ensures targets { result.targets.folder.path ≡ string_bytes targets }
{
    let targets = Disk::new(&run.targets, targets, Depth::Below);
    Folders {
        metadata: Disk::new(&run.metadata, metadata, Depth::Here),
        targets: Watched::new(targets, run.progress),
    }
}
