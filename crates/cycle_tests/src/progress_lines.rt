//! Lines about the progress of a run.

use crate::repositories::string;
use cycle::{Gate, Watch};
use folder::{Depth, Disk, Folder, Job, Need};
use progress::{Counted, Ground, Progress, Watched};
use std::fs;
use std::process::Abort;
use std::sync::atomic::{AtomicU64, Ordering};

/// What the clock shows next, and what was done with it and with the lines.
#[derive(Drop)]
struct Seen {
    millis: AtomicU64,
    /// Number of times that the clock was read.
    looks: AtomicU64,
    /// Number of lines that were printed.
    printed: AtomicU64,
    /// Number of those that weren't the expected ones.
    wrong: AtomicU64,
}

impl Seen {
    fn new() -> Seen {
        Seen {
            millis: AtomicU64::new(5000),
            looks: AtomicU64::new(0),
            printed: AtomicU64::new(0),
            wrong: AtomicU64::new(0),
        }
    }

    /// Returns how often the clock was read, how many lines were printed, and how many were wrong.
    fn counts(&self) -> (u64, u64, u64) {
        let looks = self.looks.load(Ordering::SeqCst);
        let printed = self.printed.load(Ordering::SeqCst);
        (looks, printed, self.wrong.load(Ordering::SeqCst))
    }
}

/// A clock that goes on by a step each time that it is read, and the lines that are expected.
#[derive(Clone, Copy, Drop)]
struct Expecting<'a> {
    step: u64,
    lines: &'a [&'a str],
    seen: &'a Seen,
}

impl<'a> Ground for Expecting<'a> {
    fn millis(&self) -> Option<u64> {
        self.seen.looks.fetch_add(1, Ordering::SeqCst);
        Some(self.seen.millis.fetch_add(self.step, Ordering::SeqCst))
    }

    fn print(&self, line: &str) {
        let place = self.seen.printed.fetch_add(1, Ordering::SeqCst);
        let is_expected = match self.lines.get(place as usize) {
            Some(expected) => *expected == line,
            None => false,
        };
        if !is_expected {
            self.seen.wrong.fetch_add(1, Ordering::SeqCst);
        }
    }
}

/// Counts two files, two checks, and 7 of 10 bytes. Reads the clock once for each of them, and not
/// if a worker is done with a check.
fn count_all(progress: &Progress<'_, Expecting<'_>>) {
    progress.count_file();
    progress.count_file();
    progress.leave(0);
    progress.checked();
    progress.count_needed(10);
    progress.count_needed(u64::MAX);
    progress.count_digested(4);
    progress.checked();
    progress.count_digested(3);
}

/// The clock goes on by 400 milliseconds, so the third and the sixth count find it late.
#[test]
fn a_line_is_printed_once_a_second(rt: HostRuntime) {
    let lines = [
        "tufcheck: 2 files read, 1 signatures checked, 0 of 0 bytes digested",
        "tufcheck: 2 files read, 2 signatures checked, 4 of 10 bytes digested",
    ];
    let seen = Seen::new();
    let ground = Expecting {
        step: 400,
        lines: &lines,
        seen: &seen,
    };
    let progress = Progress::new(&ground, rt.alloc(), true);
    count_all(&progress);
    assert_eq!(rt; seen.counts(), (8, 2, 0));
}

#[test]
fn no_line_is_printed_unless_wanted(rt: HostRuntime) {
    let seen = Seen::new();
    let ground = Expecting {
        step: 400,
        lines: &[],
        seen: &seen,
    };
    let progress = Progress::new(&ground, rt.alloc(), false);
    count_all(&progress);
    assert_eq!(rt; seen.counts(), (0, 0, 0));
}

/// Returns the need for the SHA-256 digest of at most `up_to` bytes.
fn up_to(up_to: u64) -> Need {
    Need {
        up_to,
        sha256: true,
        sha512: false,
    }
}

fn job<R: Abort + AllocGlobal>(rt: &R, name: &str, most: u64) -> Job {
    Job {
        name: string(rt, name),
        need: up_to(most),
    }
}

/// Reads `a` as metadata, and measures it and then both files as targets.
fn read_all<R: Abort + AllocGlobal>(
    rt: &R,
    files: &HostRuntime,
    path: &str,
    progress: &Progress<'_, Expecting<'_>>,
) -> usize {
    let alloc = rt.alloc();
    let opened = Counted::opened(files, progress);
    let mut metadata = Disk::new(&opened, string(rt, path), Depth::Here);
    let digested = Counted::digested(files, progress);
    let disk = Disk::new(&digested, string(rt, path), Depth::Below);
    let mut targets = Watched::new(disk, progress);
    metadata.read(alloc, "a").expect(rt, "a file");
    targets
        .measure(alloc, "a", up_to(4))
        .expect(rt, "a measure");
    let jobs = vec![in alloc; job(rt, "a", 4), job(rt, "b", 2)];
    targets.measure_many(alloc, jobs.expect(rt, "memory")).len()
}

/// Four files are opened. Of the targets, 3 of 4 bytes are read, 3 of 4 again, and 2 of 2.
#[test]
fn files_of_folders_are_counted(rt: HostRuntime) {
    let folder = "files_of_folders_are_counted";
    let _ = fs::remove_dir_all(&rt, folder);
    fs::create_dir(&rt, folder).expect(&rt, "a folder");
    fs::write(&rt, "files_of_folders_are_counted/a", "abc").expect(&rt, "a file");
    fs::write(&rt, "files_of_folders_are_counted/b", "more").expect(&rt, "a file");
    let lines = ["tufcheck: 4 files read, 1 signatures checked, 8 of 10 bytes digested"];
    let seen = Seen::new();
    let ground = Expecting {
        step: 0,
        lines: &lines,
        seen: &seen,
    };
    let progress = Progress::new(&ground, rt.alloc(), true);
    assert_eq!(rt; read_all(&rt, &rt, folder, &progress), 2);
    seen.millis.fetch_add(1000, Ordering::SeqCst);
    progress.checked();
    let (_, printed, wrong) = seen.counts();
    assert_eq!(rt; (printed, wrong), (1, 0));
    fs::remove_dir_all(&rt, folder).expect(&rt, "a folder");
}
