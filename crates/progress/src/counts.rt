//! Counts of what was done, and the line about them.

use crate::ground::Ground;
use std::alloc::{AllocError, Global};
use std::sync::atomic::{AtomicU64, Ordering};

/// Minimum number of milliseconds between two lines.
const PAUSE: u64 = 1000;

/// What was done so far, as the threads of a run count it. If lines are wanted, each call that
/// counts prints one, at most once a second, and the first no earlier than a second after the
/// beginning. If none are wanted, nothing is counted, read from the clock or printed.
#[derive(Drop)]
pub struct Progress<'a, G> {
    ground: &'a G,
    alloc: Global,
    /// Whether lines are wanted, and the clock could be read.
    is_wanted: bool,
    /// The milliseconds of the clock at the last line, or at the beginning if there is none.
    last: AtomicU64,
    /// Number of files that were opened.
    files: AtomicU64,
    /// Number of checks that were decided.
    checks: AtomicU64,
    /// Number of bytes that were digested.
    digested: AtomicU64,
    /// Number of bytes that had to be digested, as far as is known.
    needed: AtomicU64,
}

impl<'a, G: Ground> Progress<'a, G> {
    /// Begins with nothing done. If lines are wanted and the clock can't be read, prints none.
    pub fn new(ground: &'a G, alloc: Global, is_wanted: bool) -> Progress<'a, G> {
        let begun = if is_wanted { ground.millis() } else { None };
        Progress {
            ground,
            alloc,
            is_wanted: begun.is_some(),
            last: AtomicU64::new(begun.unwrap_or(0)),
            files: AtomicU64::new(0),
            checks: AtomicU64::new(0),
            digested: AtomicU64::new(0),
            needed: AtomicU64::new(0),
        }
    }

    /// Counts a file that was opened.
    pub fn count_file(&self) {
        self.count(&self.files, 1);
    }

    /// Counts a check that was decided.
    pub fn count_check(&self) {
        self.count(&self.checks, 1);
    }

    /// Counts bytes that were digested.
    pub fn count_digested(&self, bytes: u64) {
        self.count(&self.digested, bytes);
    }

    /// Counts the bytes that are needed of a file. A file without a limit, `u64::MAX`, has none.
    pub fn count_needed(&self, up_to: u64) {
        if up_to < u64::MAX {
            self.count(&self.needed, up_to);
        }
    }

    /// Adds to the count, and prints a line if the last one is a second old, unless no lines are
    /// wanted.
    fn count(&self, count: &AtomicU64, more: u64) {
        if self.is_wanted {
            count.fetch_add(more, Ordering::SeqCst);
            self.print_if_late();
        }
    }

    /// Prints a line if the last one is a second old. Of several threads at once one prints it.
    fn print_if_late(&self) {
        let Some(now) = self.ground.millis() else {
            return;
        };
        let last = self.last.load(Ordering::SeqCst);
        if now.saturating_sub(last) < PAUSE {
            return;
        }
        let turn = (self.last).compare_exchange(last, now, Ordering::SeqCst, Ordering::SeqCst);
        if turn.is_ok() {
            self.print();
        }
    }

    /// Prints a line, unless out of memory.
    fn print(&self) {
        if let Ok(line) = self.line() {
            self.ground.print(line.as_str());
        }
    }

    /// Returns the line about what was done so far. Fails only if out of memory.
    fn line(&self) -> Result<String, AllocError> {
        let files = self.files.load(Ordering::SeqCst);
        let checks = self.checks.load(Ordering::SeqCst);
        let digested = self.digested.load(Ordering::SeqCst);
        let needed = self.needed.load(Ordering::SeqCst);
        let done = format!(in self.alloc; "{files} files read, {checks} signatures checked")?;
        format!(in self.alloc; "tufcheck: {done}, {digested} of {needed} bytes digested")
    }
}
