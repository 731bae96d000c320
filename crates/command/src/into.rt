//! Repositories in folders of the file system, with copies of their good targets.

ghost use Rattle.std.specs.Prelude.{◌≡◌, ◌≢◌, IfErr, IfOk, string_bytes};
ghost use Rattle.report.specs.Lines.{IsStatus};
ghost use Rattle.command.specs.Done.{IsCauseOf, IsVerifiedIntoOf, site_at};
ghost use Rattle.update.specs.Copies.{IsCauseToVerifyInto};

use crate::folders::two_folders;
use crate::runtime::{CountedFolders, Runtime};
use crate::subcommand::FolderPaths;
use copies::Below;
use failure::Failure;
use std::alloc::AllocError;
use std::io::Write;
use std::sync::Wait;
use std::thread::Threads;
use system::Machine;
use update::{Host, Terms};

/// Verifies the repository in the folders, and stores copies of the good targets below `into`.
#[tactic(auto, using(crate::proofs::Doing::quiet))]
pub fn verify_into_in<T: Threads + Wait + Sync, W: Write>(
    run: &Runtime<'_, T>,
    terms: &Terms<'_>,
    folders: FolderPaths<'_>,
    into: &str,
    out: W,
) -> (Result<u8, Failure>, W)
    ensures known { IfOk result.0 IsStatus }
    ensures verified { IfOk result.0 (IsVerifiedIntoOf terms.now folders.entry into.now
        (W.contents out) (W.contents result.1)) }
    ensures quiet { IfErr result.0 (λ f. f ≢ Failure.Memory → f ≢ Failure.Output
        → W.contents result.1 ≡ W.contents out) }
    ensures cause { IfErr result.0 (λ f. IsCauseOf (λ w v. IsCauseToVerifyInto terms.now
        (site_at into.now) w v f) (W.contents out) (W.contents result.1)) }
{
    let (folders, mut to) = match three_folders(run, folders, into) {
        Ok(all) => all,
        Err(error) => return (Err(Failure::from(error)), out),
    };
    let mut host = Host {
        system: Machine::new(run.host),
        folders,
        out,
    };
    let done = host.verify_into(&run.threading(), run.alloc, terms, &mut to);
    (done, host.out)
}

/// Returns the folders of these paths: those of the repository, and the one for the copies.
fn three_folders<'a, T>(
    run: &'a Runtime<'_, T>,
    folders: FolderPaths<'_>,
    into: &str,
) -> Result<(CountedFolders<'a>, Below<'a, HostRuntime>), AllocError>
    ensures metadata { IfOk result (λ x. x.0.metadata.path ≡ folders.entry.metadata.now) }
    ensures targets { IfOk result (λ x. x.0.targets.folder.path ≡ folders.entry.targets.now) }
    ensures into { IfOk result (λ x. string_bytes x.1.folder ≡ into.now) }
{
    let repository = two_folders(run, folders)?;
    let copies = Below::new(run.host, String::from_str(run.alloc, into)?);
    Ok((repository, copies))
}
