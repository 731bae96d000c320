//! What subcommands run on.

use cycle::Threading;
use folder::Disk;
use progress::{Counted, Progress, Watched};
use std::alloc::Global;
use update::Folders;

/// The files of the system, which are counted.
pub type CountedFiles<'a> = Counted<'a, HostRuntime, HostRuntime>;

/// The folders of a repository, whose files are counted.
pub(crate) type CountedFolders<'a> = Folders<
    Disk<'a, CountedFiles<'a>>,
    Watched<'a, Disk<'a, CountedFiles<'a>>, HostRuntime>,
>;

/// The system, the starter of threads, the allocator and the counts of a run.
#[derive(Drop)]
pub struct Runtime<'a, T> {
    /// Files, clock and standard input.
    pub host: &'a HostRuntime,
    /// Starts the threads that decide checks in advance.
    pub threads: &'a T,
    /// The allocator.
    pub alloc: Global,
    /// Counts of what the run did so far.
    pub progress: &'a Progress<'a, HostRuntime>,
    /// The files for folders of metadata.
    pub metadata: CountedFiles<'a>,
    /// The files for folders of target files, whose bytes are digested.
    pub targets: CountedFiles<'a>,
}

impl<'a, T> Runtime<'a, T> {
    /// Returns the runtime whose files have these counts.
    pub fn new(
        host: &'a HostRuntime,
        threads: &'a T,
        alloc: Global,
        progress: &'a Progress<'a, HostRuntime>,
    ) -> Runtime<'a, T> {
        Runtime {
            host,
            threads,
            alloc,
            progress,
            metadata: Counted::opened(host, progress),
            targets: Counted::digested(host, progress),
        }
    }

    /// Returns what starts the threads and counts their checks.
    pub(crate) fn threading(&self) -> Threading<'a, T, Progress<'a, HostRuntime>> {
        Threading {
            rt: self.threads,
            watch: self.progress,
        }
    }
}
