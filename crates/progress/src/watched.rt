//! A folder whose work is counted before it is done.

ghost use Rattle.std.specs.Prelude.{◌≡◌};

use crate::counts::Progress;
use crate::ground::Ground;
use folder::{Done, Folder, Job, LoadFault, Measure, Need, Sink};
use std::alloc::Global;

/// The folder of `F`. The bytes that are needed of its files are counted before they are read.
#[derive(Drop)]
pub struct Watched<'a, F, G> {
    folder: F,
    progress: &'a Progress<'a, G>,
}

impl<'a, F, G> Watched<'a, F, G> {
    /// Returns the folder with these counts.
    pub fn new(folder: F, progress: &'a Progress<'a, G>) -> Watched<'a, F, G>
        ensures folder { result.folder ≡ folder }
    {
        Watched { folder, progress }
    }
}

impl<'a, F: Folder, G: Ground> Folder for Watched<'a, F, G> {
    ghost gives = { λ s. F.gives s.folder };

    fn names(&mut self, alloc: Global) -> Result<Vec<String>, LoadFault> {
        self.folder.names(alloc)
    }

    fn read(&mut self, alloc: Global, name: &str) -> Result<Vec<u8>, LoadFault> {
        self.folder.read(alloc, name)
    }

    fn read_start(&mut self, alloc: Global, name: &str, up_to: u64) -> Result<Vec<u8>, LoadFault> {
        self.folder.read_start(alloc, name, up_to)
    }

    fn measure(&mut self, alloc: Global, name: &str, need: Need) -> Result<Measure, LoadFault> {
        self.progress.count_needed(need.up_to);
        self.folder.measure(alloc, name, need)
    }

    fn measure_into<K: Sink>(
        &mut self,
        alloc: Global,
        name: &str,
        need: Need,
        sink: &mut K,
    ) -> Result<Measure, LoadFault> {
        self.progress.count_needed(need.up_to);
        self.folder.measure_into(alloc, name, need, sink)
    }

    fn measure_shared(&self, alloc: Global, name: &str, need: Need) -> Option<Measure> {
        self.folder.measure_shared(alloc, name, need)
    }

    fn measure_many(&self, alloc: Global, jobs: Vec<Job>) -> Vec<Done> {
        count_jobs(self.progress, jobs.as_slice());
        self.folder.measure_many(alloc, jobs)
    }

    fn failed(&self) -> u64 {
        self.folder.failed()
    }
}

/// Counts the bytes that the jobs need.
fn count_jobs<G: Ground>(progress: &Progress<'_, G>, jobs: &[Job]) {
    for job in jobs {
        progress.count_needed(job.need.up_to);
    }
}
