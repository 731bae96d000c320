//! Clocks that show one time, and folders that fail.

ghost use Rattle.std.specs.Prelude.{◌≡◌, ◌≤◌, ◌<◌, ◌⊎◌, ◌^◌, ◌-◌, true, IsErr, None, OnErr};
ghost use Rattle.folder.specs.Folders.{HasGrown};

use crate::shell::{NOW, Shell, push_words};
use anyhow::{Context, Result};
use cycle::{Limits, Moment, Open, Threading, Trusted};
use failure::{Failure, tell_failure};
use folder::{Depth, Disk, Folder, LoadFault};
use sessions::{Output, Step};
use std::alloc::Global;
use std::rt::Clock;
use std::sync::Wait;
use std::thread::Threads;
use std::time::Duration;
use std::{fs, io};
use system::{Machine, System, Temporary, whole_seconds};
use update::{Detail, Folders, Host, Start, Wanted, Workers, moment};

/// The files of a session beside a clock that shows one time since 1970, or that can't be read.
#[derive(Drop)]
struct Stopped<'a> {
    files: Machine<'a, HostRuntime>,
    time: Option<Duration>,
}

impl<'a> Clock for Stopped<'a> {
    fn monotonic(&self) -> io::Result<Duration> {
        self.since_1970()
    }

    fn since_1970(&self) -> io::Result<Duration> {
        match self.time {
            Some(time) => Ok(time),
            None => Err(io::Error::from(io::ErrorKind::Unsupported)),
        }
    }
}

impl<'a> System for Stopped<'a> {
    ghost gives = { λ _ _ _. true };

    ghost gives_locked = { λ _ _ _. true };

    ghost refuses = { λ _ _. true };

    ghost locks = { λ _ _. true };

    ghost keeps = { λ _ _ _. true };

    ghost obstacles = { λ _. record { blocks = λ _. true; fails = λ _. true } };

    ghost shows = { λ _ _. true };

    fn read(&self, path: &str, most: u64) -> io::Result<Vec<u8>> {
        self.files.read(path, most)
    }

    fn read_locked(&mut self, path: &str, most: u64) -> io::Result<Vec<u8>> {
        self.files.read_locked(path, most)
    }

    fn store(&mut self, path: &str, bytes: &[u8]) -> io::Result<()> {
        self.files.store(path, bytes)
    }

    fn install<K: Temporary>(&mut self, file: &K, path: &str) -> io::Result<()> {
        self.files.install(file, path)
    }

    fn seconds(&self) -> Option<u64> {
        whole_seconds(self)
    }
}

/// Returns the day and the second of a verification's moment: of the text, or without a text of a
/// clock that shows these seconds and nanoseconds. `none` is a clock that can't be read.
pub fn clock<T>(shell: &Shell<'_, T>, words: &[String]) -> Result<Output> {
    let seconds = words.first().context("no seconds")?.as_str();
    let time = if seconds == "none" {
        None
    } else {
        let nanos = words.get(1).context("no nanoseconds")?.as_str();
        Some(time_of(seconds.parse::<u64>()?, nanos.parse::<u64>()?))
    };
    let system = Stopped {
        files: Machine::new(shell.rt),
        time,
    };
    match moment(&system, words.get(2).map(|text| text.as_str())) {
        Ok(moment) => day_and_second(shell.alloc, moment),
        Err(failure) => failed(shell.alloc, failure),
    }
}

fn day_and_second(alloc: Global, moment: Moment) -> Result<Output> {
    let (day, second) = (moment.day(), moment.second());
    let text = format!(in alloc; "day {day}, second {second}\n")?;
    Ok(Output::printed(alloc, text))
}

/// Returns the time of these seconds and nanoseconds.
fn time_of(seconds: u64, nanos: u64) -> Duration {
    Duration::from_secs(seconds).saturating_add(Duration::from_nanos(nanos))
}

/// Returns the line of a failure, with its status.
fn failed(alloc: Global, failure: Failure) -> Result<Output> {
    let mut output = Output::nothing(alloc);
    tell_failure(failure, &mut output.err)?;
    output.status = failure.status();
    Ok(output)
}

/// A folder of the session. Some calls succeed, and all later ones fail.
#[derive(Drop)]
struct FailingFolder<'a> {
    disk: Disk<'a, HostRuntime>,
    calls: u64,
    faults: u64,
}

impl<'a> FailingFolder<'a> {
    /// Returns a folder whose first `calls` calls are those of the disk. All later ones fail.
    fn after(disk: Disk<'a, HostRuntime>, calls: u64) -> FailingFolder<'a> {
        FailingFolder {
            disk,
            calls,
            faults: 0,
        }
    }

    fn turn(&mut self) -> Result<(), LoadFault>
        ensures failed { OnErr result (HasGrown self.old.faults self.new.faults) }
        ensures counts { self.old.faults ≤ self.new.faults }
    {
        if self.calls == 0 {
            return Err(self.counted(LoadFault::Folder));
        }
        self.calls -= 1;
        Ok(())
    }

    /// Counts the fault and returns it.
    fn counted(&mut self, fault: LoadFault) -> LoadFault
        ensures failed { HasGrown self.old.faults self.new.faults }
        ensures counts { self.old.faults ≤ self.new.faults }
    {
        self.faults = self.faults.saturating_add(1);
        fault
    }
}

impl<'a> Folder for FailingFolder<'a> {
    ghost gives = { λ s. record {
      lists = λ _. true;
      holds = λ _ _. true;
      failures = s.faults;
      place = None;
    } };

    fn names(&mut self, alloc: Global) -> Result<Vec<String>, LoadFault> {
        self.turn()?;
        match self.disk.names(alloc) {
            Ok(names) => Ok(names),
            Err(fault) => Err(self.counted(fault)),
        }
    }

    fn read(&mut self, alloc: Global, name: &str) -> Result<Vec<u8>, LoadFault> {
        self.turn()?;
        match self.disk.read(alloc, name) {
            Ok(bytes) => Ok(bytes),
            Err(fault) => Err(self.counted(fault)),
        }
    }

    fn failed(&self) -> u64 {
        self.faults
    }
}

/// Verifies the folders `metadata` and `targets`, whose calls fail after given numbers of them, for
/// the wanted paths from the root of version 1, and stores the state under the given name.
pub fn failing<T: Threads + Wait + Sync>(shell: &Shell<'_, T>, step: &Step) -> Result<Output> {
    let root = fs::read(shell.rt, "metadata/1.root.json")?;
    let start = Start {
        alloc: shell.alloc,
        trusted: Trusted::from_root(shell.alloc, root.as_slice())?,
        moment: Moment::read(NOW).context("no moment")?,
        limits: Limits::new(32, 4096).context("no limits")?,
        workers: Workers::new(2).context("no workers")?,
        state: step.word(2)?,
        detail: Detail::Faults,
    };
    let mut paths = Vec::new(shell.alloc);
    push_words(&mut paths, step.words_behind(3))?;
    let wanted = Wanted::Paths(paths);
    verified(shell, &start, &wanted, failing_folders(shell, step)?)
}

/// Returns the folders whose calls fail after the numbers that the step gives.
fn failing_folders<'a, T>(
    shell: &Shell<'a, T>,
    step: &Step,
) -> Result<Folders<FailingFolder<'a>, FailingFolder<'a>>> {
    let metadata = String::from_str(shell.alloc, "metadata")?;
    let targets = String::from_str(shell.alloc, "targets")?;
    let metadata = Disk::new(shell.rt, metadata, Depth::Here);
    let targets = Disk::new(shell.rt, targets, Depth::Below);
    Ok(Folders {
        metadata: FailingFolder::after(metadata, step.word(0)?.parse::<u64>()?),
        targets: FailingFolder::after(targets, step.word(1)?.parse::<u64>()?),
    })
}

/// Returns the lines and the status of a verification of these folders, or of its failure.
fn verified<'a, 'b, T: Threads + Wait + Sync>(
    shell: &Shell<'a, T>,
    start: &'b Start<'_>,
    wanted: &'b Wanted,
    folders: Folders<FailingFolder<'a>, FailingFolder<'a>>,
) -> Result<Output> {
    let mut output = Output::nothing(shell.alloc);
    match verify(shell, start, wanted, folders, &mut output.out) {
        Ok(status) => output.status = status,
        Err(failure) => {
            tell_failure(failure, &mut output.err)?;
            output.status = failure.status();
        }
    }
    Ok(output)
}

/// Verifies the folders, beside a clock that can't be read.
fn verify<'a, 'b, T: Threads + Wait + Sync>(
    shell: &Shell<'a, T>,
    start: &'b Start<'_>,
    wanted: &'b Wanted,
    folders: Folders<FailingFolder<'a>, FailingFolder<'a>>,
    out: &mut Vec<u8>,
) -> Result<u8, Failure> {
    let system = Stopped {
        files: Machine::new(shell.rt),
        time: None,
    };
    let mut host = Host {
        system,
        folders,
        out,
    };
    let threading = Threading {
        rt: shell.threads,
        watch: &Open,
    };
    host.verify_from(&threading, start, wanted)
}
