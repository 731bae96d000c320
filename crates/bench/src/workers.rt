//! Cycles beside workers, and cycles on one thread.

use crate::parts::nanoseconds;
use crate::trouble::Trouble;
use cycle::{Limits, Moment, Open, Outcome, Repo, Trusted, run, run_alone};
use maker::make;
use std::alloc::Global;
use std::collections::BTreeMap;
use std::io::Write;
use std::rt::Clock;
use std::sync::Wait;
use std::thread::Threads;
use std::time::Instant;

/// Number of rounds that are timed.
const ROUNDS: u64 = 11;

/// Number of delegated roles, and of keys that sign each.
const ROLES: u32 = 32;

/// A repository in which one path is searched in vain through all delegated roles.
struct Course {
    repo: Repo,
    trusted: Trusted,
    now: Moment,
    limits: Limits,
    wanted: Vec<String>,
}

impl Drop for Course {
    fn drop(self) {
        let Course {
            repo,
            trusted,
            now,
            limits,
            wanted,
        } = self;
    }
}

/// Prints for each round how many microseconds a cycle of 1,024 signatures took on one thread, and
/// with one, two and four workers.
pub fn rounds<C: Clock, R: Threads + Wait + Sync, W: Write>(
    clock: &C,
    rt: &R,
    alloc: Global,
    out: &mut W,
) -> Result<(), Trouble> {
    let course = course_of_roles(alloc)?;
    for _ in 0..ROUNDS {
        let alone = time_alone(clock, alloc, &course)?;
        let one = time_beside(clock, rt, alloc, &course, 1)?;
        let two = time_beside(clock, rt, alloc, &course, 2)?;
        let four = time_beside(clock, rt, alloc, &course, 4)?;
        writeln!(
            out,
            "alone {alone} us, by 1, 2, 4 workers {one} {two} {four} us"
        )?;
    }
    Ok(())
}

fn time_alone<C: Clock>(clock: &C, alloc: Global, course: &Course) -> Result<u64, Trouble> {
    let start = Instant::now(clock)?;
    let outcome = run_alone(
        alloc,
        &course.trusted,
        &course.repo,
        course.now,
        course.wanted.as_slice(),
        &course.limits,
    )?;
    let took = nanoseconds(clock, start)?;
    whole(&outcome)?;
    Ok(took / 1000)
}

fn time_beside<C: Clock, R: Threads + Wait + Sync>(
    clock: &C,
    rt: &R,
    alloc: Global,
    course: &Course,
    workers: usize,
) -> Result<u64, Trouble> {
    let start = Instant::now(clock)?;
    let outcome = run(
        rt,
        alloc,
        &course.trusted,
        &course.repo,
        course.now,
        course.wanted.as_slice(),
        &course.limits,
        workers.min(64),
        &Open,
    )?;
    let took = nanoseconds(clock, start)?;
    whole(&outcome)?;
    Ok(took / 1000)
}

/// Checks that all delegated roles were accepted.
fn whole(outcome: &Outcome) -> Result<(), Trouble> {
    if outcome.accepted().len() == ROLES as usize {
        Ok(())
    } else {
        Err(Trouble::Part)
    }
}

fn course_of_roles(alloc: Global) -> Result<Course, Trouble> {
    let repo = repository(alloc)?;
    let root = repo.metadata.get("1.root.json").ok_or(Trouble::Part)?;
    let trusted = Trusted::from_root(alloc, root.as_slice())?;
    let mut wanted = Vec::new(alloc);
    wanted.push(String::from_str(alloc, "nowhere")?)?;
    Ok(Course {
        repo,
        trusted,
        now: Moment::read("2026-01-01T00:00:00Z").ok_or(Trouble::Part)?,
        limits: Limits::new(256, 4096).ok_or(Trouble::Part)?,
        wanted,
    })
}

fn repository(alloc: Global) -> Result<Repo, Trouble> {
    let script = script(alloc)?;
    let mut metadata = BTreeMap::new(alloc);
    for (name, bytes) in make(alloc, script.as_str())? {
        let name = name
            .as_str()
            .strip_prefix("metadata/")
            .ok_or(Trouble::Part)?;
        let _ = metadata.insert(String::from_str(alloc, name)?, bytes)?;
    }
    Ok(Repo {
        metadata,
        targets: BTreeMap::new(alloc),
    })
}

/// Returns a script of 32 roles that list nothing, each signed by the same 32 keys, whose bytes are
/// 5 to 36.
fn script(alloc: Global) -> Result<String, Trouble> {
    let keys = key_list(alloc)?;
    let mut text = String::new(alloc);
    push_keys(&mut text)?;
    text.push_str("top root 1 1\ntop timestamp 1 2\ntop snapshot 1 3\ntop targets 1 4\n")?;
    push_delegations(&mut text, keys.as_str())?;
    push_roles(&mut text, keys.as_str())?;
    text.push_str("write root 1 1\nwrite targets 1 4\nwrite snapshot 1 3\nwrite timestamp 1 2")?;
    Ok(text)
}

fn push_keys(text: &mut String) -> Result<(), Trouble> {
    for key in 1..=ROLES + 4 {
        writeln!(text, "key {key} 5")?;
    }
    Ok(())
}

fn push_delegations(text: &mut String, keys: &str) -> Result<(), Trouble> {
    for role in 1..=ROLES {
        writeln!(text, "delegate targets r{role} {ROLES} {keys} go paths *")?;
    }
    Ok(())
}

fn push_roles(text: &mut String, keys: &str) -> Result<(), Trouble> {
    for role in 1..=ROLES {
        writeln!(text, "write r{role} 1 {keys}")?;
    }
    Ok(())
}

fn key_list(alloc: Global) -> Result<String, Trouble> {
    let mut text = String::from_str(alloc, "5")?;
    for key in 6..=ROLES + 4 {
        write!(text, ",{key}")?;
    }
    Ok(text)
}
