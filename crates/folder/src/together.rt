//! Files that are measured side by side, each in a lane.

ghost use Rattle.std.specs.Prelude.{◌≡◌, ◌≢◌, ◌≤◌, ◌<◌, ℕ, List, Option, Some, false};
ghost use Rattle.std.specs.Prelude.{All, IfOk, IfSome, length, string_bytes};
ghost use Rattle.sha2.specs.Sha256.{initial_hash_256};
ghost use Rattle.lanes.specs.Lanes.{IsRow, lane};
ghost use Rattle.lanes.specs.Pending.{IsPending};
ghost use Rattle.folder.specs.Streams.{AreLanes, AreMeasured, AreRooms, IsInLane, IsMeasureIn};
ghost use Rattle.folder.specs.Streams.{IsStream};

use crate::job::{Done, Job};
use crate::measure::Measure;
use crate::stream::{Opener, Stream};
use lanes::{LANES, Pending, begin, digest, digest_words, take_blocks};
use std::alloc::{AllocError, Global};
use std::io::Read;
use std::simd::prelude::*;

/// The jobs that are left, of which the last is next, and the files that were measured.
#[derive(Drop)]
struct Work {
    alloc: Global,
    jobs: Vec<Job>,
    done: Vec<Done>,
}

impl Work {
    /// Adds a file that was measured, unless out of memory.
    fn note(&mut self, done: Done)
        ensures jobs { self.new.jobs ≡ self.old.jobs }
        ensures done { (content : List ℕ → Option (List ℕ))
            → IsMeasureIn (content (string_bytes done.name)) done.need done.measure
            → AreMeasured content self.old.done.items → AreMeasured content self.new.done.items }
    {
        self.done.push(done).ok();
    }
}

/// The rooms of the lanes, and the file that is in each, if there is one.
#[derive(Drop)]
struct Lanes<F> {
    rooms: Vec<Pending>,
    streams: Vec<Option<Stream<F>>>,
}

impl<F: Read + Drop> Lanes<F> {
    /// Returns `count` lanes with no files. Fails only if out of memory.
    fn new(alloc: Global, count: usize) -> Result<Lanes<F>, AllocError>
        ensures { IfOk result (λ lanes. (content : List ℕ → Option (List ℕ)) (state : List (List ℕ))
            → AreLanes content F.remaining count state lanes) }
    {
        let mut rooms = Vec::new(alloc);
        let mut streams = Vec::new(alloc);
        'lanes: for _ in 0..count {
            rooms.push(Pending::new(alloc)?)?;
            streams.push(None)?;
        }
        Ok(Lanes { rooms, streams })
    }

    fn have_files(&self) -> bool {
        for stream in &self.streams {
            if stream.is_some() {
                return true;
            }
        }
        false
    }
}

/// Measures the files of these jobs: several side by side, if SHA-256 alone is wanted of them.
/// Returns those that were measured. A file that can't be read is left out.
pub(crate) fn measure_jobs<O: Opener>(alloc: Global, opener: &O, jobs: Vec<Job>) -> Vec<Done>
    ensures { AreMeasured (O.content opener.now) result.items }
{
    let mut work = Work {
        alloc,
        jobs,
        done: Vec::new(alloc),
    };
    measure_longest(opener, &mut work);
    measure_together::<O, LANES>(opener, &mut work);
    work.done
}

/// Measures the last file alone, as long as more of it is wanted than of all others together. The
/// lanes of the others would have ended long before it.
fn measure_longest<O: Opener>(opener: &O, work: &mut Work)
    ensures { AreMeasured (O.content opener.now) work.old.done.items
        → AreMeasured (O.content opener.now) work.new.done.items }
{
    'jobs: for _ in 0..work.jobs.len() {
        if !has_longest(work.jobs.as_slice()) {
            return;
        }
        if let Some(job) = work.jobs.pop() {
            measure_alone(opener, work, job);
        }
    }
}

/// Returns whether more of the last file is wanted than of all others together.
fn has_longest(jobs: &[Job]) -> bool {
    let mut others: u64 = 0;
    let mut last: u64 = 0;
    for job in jobs {
        others = others.saturating_add(last);
        last = job.need.up_to;
    }
    last > others
}

/// Measures one file.
fn measure_alone<O: Opener>(opener: &O, work: &mut Work, job: Job)
    ensures jobs { work.new.jobs ≡ work.old.jobs }
    ensures done { AreMeasured (O.content opener.now) work.old.done.items
        → AreMeasured (O.content opener.now) work.new.done.items }
{
    let Job { name, need } = job;
    let Ok(mut file) = opener.open(work.alloc, name.as_str()) else {
        return;
    };
    if let Ok(measure) = Measure::of_reader(work.alloc, need, &mut file) {
        work.note(Done {
            name,
            need,
            measure,
        });
    }
}

/// Measures the files of all jobs, `N` side by side. Does nothing if out of memory.
fn measure_together<O: Opener, const N: usize>(opener: &O, work: &mut Work)
    requires { N ≤ 64 }
    ensures { AreMeasured (O.content opener.now) work.old.done.items
        → AreMeasured (O.content opener.now) work.new.done.items }
{
    let Ok(mut lanes) = Lanes::<O::File>::new(work.alloc, N) else {
        return;
    };
    let mut state = digest_words(&[[0u8; 32]; N]);
    'turns: for _ in 0..u64::MAX {
        tend_all(opener, work, &mut lanes, &mut state);
        if !lanes.have_files() {
            return;
        }
        take_blocks(&mut state, lanes.rooms.as_mut_slice());
    }
}

/// Gives each lane that has no blocks left its next ones.
fn tend_all<O: Opener, const N: usize>(
    opener: &O,
    work: &mut Work,
    lanes: &mut Lanes<O::File>,
    state: &mut [Simd<u32, N>; 8],
)
    requires most { N ≤ 64 }
    requires row { IsRow N 8 state.old }
    requires lanes { AreLanes (O.content opener.now) O.File.remaining N state.old lanes.old }
    ensures row { IsRow N 8 state.new }
    ensures lanes { AreLanes (O.content opener.now) O.File.remaining N state.new lanes.new }
    ensures done { AreMeasured (O.content opener.now) work.old.done.items
        → AreMeasured (O.content opener.now) work.new.done.items }
{
    'lanes: for l in 0..N {
        go_on(work, lanes, state, l);
        begin_next(opener, work, lanes, state, l);
    }
}

/// Reads more of the file in lane `l` if the lane has no blocks left, or measures the file and
/// empties the lane if the file has ended.
fn go_on<F: Read + Drop, const N: usize>(
    work: &mut Work,
    lanes: &mut Lanes<F>,
    state: &[Simd<u32, N>; 8],
    l: usize,
)
    requires most { N ≤ 64 }
    requires lane { l < N }
    requires row { IsRow N 8 state.now }
    requires lanes { AreRooms N lanes.old }
    ensures lanes { (content : List ℕ → Option (List ℕ))
        → AreLanes content F.remaining N state.now lanes.old
        → AreLanes content F.remaining N state.now lanes.new }
    ensures done { (content : List ℕ → Option (List ℕ))
        → AreLanes content F.remaining N state.now lanes.old
        → AreMeasured content work.old.done.items → AreMeasured content work.new.done.items }
{
    if let Some(stream) = lanes.streams[l].take() {
        lanes.streams[l] = more_of(stream, work, &mut lanes.rooms[l], state, l);
    }
}

/// Reads more of the file in lane `l` if the lane has no blocks left, or measures the file if it
/// has ended. Returns the file unless it has ended or can't be read.
fn more_of<F: Read + Drop, const N: usize>(
    stream: Stream<F>,
    work: &mut Work,
    room: &mut Pending,
    state: &[Simd<u32, N>; 8],
    l: usize,
) -> Option<Stream<F>>
    requires lane { l < N }
    requires row { IsRow N 8 state.now }
    requires room { IsPending room.old }
    ensures room { IsPending room.new }
    ensures stream { (content : List ℕ → Option (List ℕ))
        → IsInLane content F.remaining (lane l state.now) room.old (Some stream)
        → IsInLane content F.remaining (lane l state.now) room.new result }
    ensures done { (content : List ℕ → Option (List ℕ))
        → IsInLane content F.remaining (lane l state.now) room.old (Some stream)
        → AreMeasured content work.old.done.items → AreMeasured content work.new.done.items }
{
    if room.left > 0 {
        return Some(stream);
    }
    if stream.has_ended() {
        work.note(stream.done(digest(state, l)));
        return None;
    }
    let mut stream = stream;
    match stream.refill(room) {
        Ok(()) => Some(stream),
        Err(_) => None,
    }
}

/// Puts the next file into lane `l` if it has none, or no file if no job is left.
fn begin_next<O: Opener, const N: usize>(
    opener: &O,
    work: &mut Work,
    lanes: &mut Lanes<O::File>,
    state: &mut [Simd<u32, N>; 8],
    l: usize,
)
    requires most { N ≤ 64 }
    requires lane { l < N }
    requires row { IsRow N 8 state.old }
    requires lanes { AreLanes (O.content opener.now) O.File.remaining N state.old lanes.old }
    ensures row { IsRow N 8 state.new }
    ensures lanes { AreLanes (O.content opener.now) O.File.remaining N state.new lanes.new }
    ensures done { AreMeasured (O.content opener.now) work.old.done.items
        → AreMeasured (O.content opener.now) work.new.done.items }
{
    if lanes.streams[l].is_some() {
        return;
    }
    lanes.streams[l] = next_of(opener, work, &mut lanes.rooms[l], state, l);
}

/// Opens the next file for lane `l`, and reads its first blocks. Returns it, or None if no job is
/// left.
fn next_of<O: Opener, const N: usize>(
    opener: &O,
    work: &mut Work,
    room: &mut Pending,
    state: &mut [Simd<u32, N>; 8],
    l: usize,
) -> Option<Stream<O::File>>
    requires lane { l < N }
    requires row { IsRow N 8 state.old }
    requires room { IsPending room.old }
    ensures row { IsRow N 8 state.new }
    ensures others { (i : ℕ) → i ≢ l → lane i state.new ≡ lane i state.old }
    ensures room { IsPending room.new }
    ensures stream { IsInLane (O.content opener.now) O.File.remaining
        (lane l state.new) room.new result }
    ensures done { AreMeasured (O.content opener.now) work.old.done.items
        → AreMeasured (O.content opener.now) work.new.done.items }
{
    'jobs: while let Some(job) = work.jobs.pop() {
        let Some(stream) = opened(opener, work, job) else {
            continue;
        };
        let mut stream = stream;
        begin(state, l);
        room.left = 0;
        if stream.refill(room).is_ok() {
            return Some(stream);
        }
    }
    room.idle();
    None
}

/// Opens the file of the job for a lane. Returns None if it can't be opened, and if it can't be
/// digested in a lane: then it is measured alone.
fn opened<O: Opener>(opener: &O, work: &mut Work, job: Job) -> Option<Stream<O::File>>
    ensures jobs { work.new.jobs ≡ work.old.jobs }
    ensures ended { IfSome result (λ s. s.ended ≡ false) }
    ensures stream { IfSome result (λ s. (p : Pending) → p.left ≡ 0
        → IsStream (O.content opener.now (string_bytes s.name)) (O.File.remaining s.file)
        initial_hash_256 p s) }
    ensures done { AreMeasured (O.content opener.now) work.old.done.items
        → AreMeasured (O.content opener.now) work.new.done.items }
{
    if !job.need.sha256 || job.need.sha512 {
        measure_alone(opener, work, job);
        return None;
    }
    let Ok(file) = opener.open(work.alloc, job.name.as_str()) else {
        return None;
    };
    Some(Stream::new(job, file))
}
