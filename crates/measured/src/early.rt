//! Measures of files before the searches need them, several files at once.

ghost use Rattle.std.specs.Prelude.{◌≡◌, ◌<◌, ℕ, List, Bool, All, string_bytes};
ghost use Rattle.folder.specs.Measures.{IsMeasureOf};
ghost use Rattle.measured.specs.Known.{AreDone, StaysKnown};

use crate::known::{Known, Wanted, entry_of, put};
use folder::{Done, Folder, Job};
use std::alloc::{AllocError, Global};
use std::mem;
use std::thread::{self, Threads};

/// Maximum number of files that a thread measures before their measures are stored.
const MOST_AT_ONCE: usize = 2_048;

/// The threads that read target files.
#[derive(Drop)]
pub struct Readers<'a, R> {
    /// The runtime that starts them.
    pub rt: &'a R,
    /// Maximum number of threads; if it is 0, the calling thread reads.
    pub threads: usize,
}

/// The files that one thread measures, and those that it has measured.
#[derive(Drop)]
pub struct Share {
    pub jobs: Vec<Job>,
    pub done: Vec<Done>,
}

/// Measures the wanted files by the readers' threads, each of which digests several files side by
/// side. If there are none, the calling thread does so, if several files are wanted. What is known
/// of a file is unchanged if it can't be measured. Fails only if out of memory.
pub(crate) fn read_early<R: Threads + Sync, F: Folder + Sync>(
    readers: &Readers<'_, R>,
    alloc: Global,
    folder: &F,
    known: &mut Known,
) -> Result<(), AllocError>
    ensures known { (names : List (List ℕ)) (found : List ℕ → Bool)
        → StaysKnown names (F.gives folder.now).holds found known.old known.new }
{
    let mut jobs = jobs_of(alloc, known)?;
    if readers.threads == 0 && jobs.len() < 2 {
        return Ok(());
    }
    'parts: for _ in 0..jobs.len() {
        if jobs.is_empty() {
            return Ok(());
        }
        read_part(readers, alloc, folder, &mut jobs, known)?;
    }
    Ok(())
}

/// Returns a job for each wanted file, with those first of which most is wanted. Fails only if out
/// of memory.
fn jobs_of(alloc: Global, known: &Known) -> Result<Vec<Job>, AllocError> {
    let mut jobs = Vec::new(alloc);
    for (name, entry) in &known.files {
        if let Some(wanted) = entry {
            let name = String::from_str(alloc, name.as_str())?;
            let need = wanted.need;
            jobs.push(Job { name, need })?;
        }
    }
    jobs.sort_unstable_by_key(|job: &Job| u64::MAX - job.need.up_to);
    Ok(jobs)
}

/// Measures the files of the last jobs, so that the measures of no more are held twice.
fn read_part<R: Threads + Sync, F: Folder + Sync>(
    readers: &Readers<'_, R>,
    alloc: Global,
    folder: &F,
    jobs: &mut Vec<Job>,
    known: &mut Known,
) -> Result<(), AllocError>
    ensures known { (names : List (List ℕ)) (found : List ℕ → Bool)
        → StaysKnown names (F.gives folder.now).holds found known.old known.new }
{
    let mut shares = shares_of(alloc, readers.threads.max(1))?;
    deal(jobs, shares.as_mut_slice())?;
    measure_all(readers, alloc, folder, shares.as_mut_slice());
    keep_shares(shares, known)
}

/// Returns shares with no files. Fails only if out of memory.
fn shares_of(alloc: Global, count: usize) -> Result<Vec<Share>, AllocError> {
    let mut shares = Vec::new(alloc);
    'shares: for _ in 0..count {
        shares.push(Share {
            jobs: Vec::new(alloc),
            done: Vec::new(alloc),
        })?;
    }
    Ok(shares)
}

/// Deals the last jobs to the shares in turn, the last one first. Fails only if out of memory.
fn deal(jobs: &mut Vec<Job>, shares: &mut [Share]) -> Result<(), AllocError> {
    let mut next = 0;
    'jobs: for _ in 0..shares.len().saturating_mul(MOST_AT_ONCE) {
        let Some(job) = jobs.pop() else {
            return Ok(());
        };
        if next >= shares.len() {
            next = 0;
        }
        if let Some(share) = shares.get_mut(next) {
            share.jobs.push(job)?;
            next += 1;
        }
    }
    Ok(())
}

/// Measures the files of each share, each by a thread of its own unless there are none.
fn measure_all<R: Threads + Sync, F: Folder + Sync>(
    readers: &Readers<'_, R>,
    alloc: Global,
    folder: &F,
    shares: &mut [Share],
)
    ensures { All (λ s. AreDone (F.gives folder.now).holds s.done.items) shares.new }
{
    if readers.threads == 0 {
        measure_each(alloc, folder, shares);
        return;
    }
    thread::for_each_mut(
        readers.rt,
        shares,
        readers.threads,
        &|_, share: &mut Share| { measure_share(alloc, folder, share) },
    );
}

/// Measures the files of each share, one share after the other.
fn measure_each<F: Folder>(alloc: Global, folder: &F, shares: &mut [Share])
    ensures { All (λ s. AreDone (F.gives folder.now).holds s.done.items) shares.new }
{
    'shares: for i in 0..shares.len() {
        measure_share(alloc, folder, &mut shares[i]);
    }
}

fn measure_share<F: Folder>(alloc: Global, folder: &F, share: &mut Share)
    ensures { AreDone (F.gives folder.now).holds share.new.done.items }
{
    let jobs = mem::replace(&mut share.jobs, Vec::new(alloc));
    share.done = folder.measure_many(alloc, jobs);
}

/// Stores the measures of all shares.
fn keep_shares(shares: Vec<Share>, known: &mut Known) -> Result<(), AllocError>
    ensures known { (names : List (List ℕ)) (holds : List ℕ → List ℕ → Bool)
        (found : List ℕ → Bool) → All (λ s. AreDone holds s.done.items) shares.items
        → StaysKnown names holds found known.old known.new }
{
    for share in shares {
        keep_all(share.done, known)?;
    }
    Ok(())
}

/// Stores these measures.
fn keep_all(done: Vec<Done>, known: &mut Known) -> Result<(), AllocError>
    ensures known { (names : List (List ℕ)) (holds : List ℕ → List ℕ → Bool)
        (found : List ℕ → Bool) → AreDone holds done.items
        → StaysKnown names holds found known.old known.new }
{
    for one in done {
        keep(one, known)?;
    }
    Ok(())
}

/// Stores the measure of a wanted file.
fn keep(done: Done, known: &mut Known) -> Result<(), AllocError>
    ensures known { (names : List (List ℕ)) (holds : List ℕ → List ℕ → Bool)
        (found : List ℕ → Bool)
        → IsMeasureOf done.need (holds (string_bytes done.name)) done.measure
        → StaysKnown names holds found known.old known.new }
{
    let Done {
        name,
        need,
        measure,
    } = done;
    let Some(Some(_)) = entry_of(known, name.as_str()) else {
        return Ok(());
    };
    let measure = Some(measure);
    put(known, name, Some(Wanted { need, measure }))
}
