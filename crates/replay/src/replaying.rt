//! One cycle after another, each on a repository in two folders.

ghost use Rattle.std.specs.Prelude.{◌≡◌, ◌≢◌, ◌<◌, true, IfErr, IfOk, IfSome, OnErr};
ghost use Rattle.std.specs.Prelude.{OnOk, length, map, slice_get, string_bytes};
ghost use Rattle.std.specs.List.{AllZip};
ghost use Rattle.folder.specs.Folders.{IsSameFolder};
ghost use Rattle.report.specs.Lines.{IsStatus};
ghost use Rattle.update.specs.Causes.{IsCauseToRead};
ghost use Rattle.replay.specs.Cycles.{AreToldOn, IsCause, IsReplayed, IsToldOn};
ghost use Rattle.replay.specs.Cycles.{IsUntouchedOrCycled, first_of, from_state, last_state};
ghost use Rattle.replay.specs.Cycles.{mirror_of};
ghost use Rattle.lookups.specs.Lookups.{IsPart, IsSettledOn};
ghost use Rattle.update.specs.Opened.{IsOpened};
ghost use Rattle.update.specs.Same.{IsCauseToEnd, IsSame};
ghost use Rattle.update.specs.World.{IsUntouched, OthersKept};

use cjson::NoMemory;
use cjson::number::Within;
use cycle::{Course, Gate, Keeper, Threading, Watch};
use failure::Failure;
use folder::Folder;
use lookups::{Asked, Metadata};
use measured::{Readers, measure};
use report::{Told, tell_cycles};
use std::alloc::Global;
use std::io::Write;
use std::sync::Wait;
use std::thread::Threads;
use system::System;
use update::{
    Folders, HasMirrors, HasWorld, Host, Locking, Opened, Settings, Start, begin, keep_state,
    told_of, why_lines,
};

/// A number of files whose verdicts are cached from cycle to cycle.
pub type Cached = Within<1, 4096>;

/// What the arguments of a replay name: the settings, the wanted paths, in order, and the size of
/// the verdict cache.
#[derive(Drop)]
pub struct Cycles<'a> {
    pub settings: Settings<'a>,
    pub wanted: Vec<String>,
    pub keep: Cached,
}

/// Verifies what each pair of folders holds, in order, each time from the state of the cycle
/// before. Stores the last state, and prints for each cycle the line `cycle K`, counted from 1,
/// and its lines. Returns the status of the last one, or 0 if there is none. Cached verdicts
/// have no influence on any of it.
///
/// All folders are listed before the first cycle. A target file that a cycle's searches found is
/// read in that cycle, and no other is. Otherwise all is as for [`verify`](Host::verify), with the
/// last state.
pub fn replay<
    S: System,
    M: Folder,
    T: Folder + Sync,
    W: Write,
    R: Threads + Wait + Sync,
    N: Gate + Watch + Sync,
>(
    host: &mut Host<S, Vec<Folders<M, T>>, W>,
    threading: &Threading<'_, R, N>,
    alloc: Global,
    cycles: &Cycles<'_>,
) -> Result<u8, Failure>
    ensures known { IfOk result IsStatus }
    ensures locked { OnOk result (cycles.now.settings.locking ≡ Locking.Needed
        → (⟦<Host<S, Vec<Folders<M, T>>, W> as HasWorld>⟧.world host.new).locks
        cycles.now.settings.state.now ≡ true) }
    ensures replayed { IfOk result (IsReplayed cycles.now
        (⟦<Host<S, Vec<Folders<M, T>>, W> as HasWorld>⟧.world host.old)
        (⟦<Host<S, Vec<Folders<M, T>>, W> as HasWorld>⟧.world host.new)) }
    ensures order { OnErr result (IsUntouchedOrCycled cycles.now
        (⟦<Host<S, Vec<Folders<M, T>>, W> as HasWorld>⟧.world host.old)
        (⟦<Host<S, Vec<Folders<M, T>>, W> as HasWorld>⟧.world host.new)) }
    ensures others { OthersKept cycles.now.settings.out.now
        (⟦<Host<S, Vec<Folders<M, T>>, W> as HasWorld>⟧.world host.old).keeps
        (⟦<Host<S, Vec<Folders<M, T>>, W> as HasWorld>⟧.world host.new).keeps }
    ensures quiet { IfErr result (λ f. f ≢ Failure.Memory → f ≢ Failure.Output → IsUntouched
        (⟦<Host<S, Vec<Folders<M, T>>, W> as HasWorld>⟧.world host.old)
        (⟦<Host<S, Vec<Folders<M, T>>, W> as HasWorld>⟧.world host.new)) }
    ensures cause { IfErr result (IsCause cycles.now
        (⟦<Host<S, Vec<Folders<M, T>>, W> as HasWorld>⟧.world host.old)
        (⟦<Host<S, Vec<Folders<M, T>>, W> as HasWorld>⟧.world host.new)) }
{
    let start = begin(alloc, &mut host.system, &cycles.settings)?;
    let opened = open_all(alloc, &mut host.folders)?;
    let mut keeper = keeper_of(alloc, &start, cycles.keep)?;
    let begun = Begun {
        start: &start,
        wanted: cycles.wanted.as_slice(),
    };
    let all = all_told(threading, &begun, opened, &mut host.folders, &mut keeper)?;
    keep_state(alloc, &mut host.system, start.state, keeper.trusted())?;
    tell_cycles(alloc, all.as_slice(), begun.wanted, &mut host.out)
}

/// Opens all repositories, in order.
fn open_all<M: Folder, T: Folder>(
    alloc: Global,
    folders: &mut Vec<Folders<M, T>>,
) -> Result<Vec<Opened>, Failure>
    ensures opened { IfOk result (λ all. AllZip IsOpened
        (⟦<Vec<Folders<M, T>> as HasMirrors>⟧.mirrors folders.old) all.items) }
    ensures same { AllZip IsSame (⟦<Vec<Folders<M, T>> as HasMirrors>⟧.mirrors folders.old)
        (⟦<Vec<Folders<M, T>> as HasMirrors>⟧.mirrors folders.new) }
    ensures cause { IfErr result (IsCauseToRead
        (⟦<Vec<Folders<M, T>> as HasMirrors>⟧.mirrors folders.old)
        (⟦<Vec<Folders<M, T>> as HasMirrors>⟧.mirrors folders.new)) }
{
    let mut all = Vec::new(alloc);
    for k in 0..folders.len() {
        all.push(open_at(alloc, folders, k)?)?;
    }
    Ok(all)
}

/// Opens the repository at that place.
fn open_at<M: Folder, T: Folder>(
    alloc: Global,
    folders: &mut Vec<Folders<M, T>>,
    k: usize,
) -> Result<Opened, Failure>
    requires place { k < length folders.old.items }
    ensures opened { IfOk result (λ o. IfSome
        (slice_get (⟦<Vec<Folders<M, T>> as HasMirrors>⟧.mirrors folders.old) k)
        (λ m. IsOpened m o)) }
    ensures same { AllZip IsSame (⟦<Vec<Folders<M, T>> as HasMirrors>⟧.mirrors folders.old)
        (⟦<Vec<Folders<M, T>> as HasMirrors>⟧.mirrors folders.new) }
    ensures cause { IfErr result (IsCauseToRead
        (⟦<Vec<Folders<M, T>> as HasMirrors>⟧.mirrors folders.old)
        (⟦<Vec<Folders<M, T>> as HasMirrors>⟧.mirrors folders.new)) }
{
    folders[k].open(alloc)
}

/// Returns a keeper of the state that the cycles begin with.
fn keeper_of(alloc: Global, start: &Start<'_>, keep: Cached) -> Result<Keeper, NoMemory>
    ensures state { IfOk result (λ k. k ≡ start.now.trusted) }
{
    let trusted = start.trusted.copy()?;
    Keeper::new(alloc, trusted, keep.get() as usize)
}

/// What each cycle of a replay begins with, and the wanted paths.
#[derive(Clone, Copy)]
struct Begun<'a> {
    start: &'a Start<'a>,
    wanted: &'a [String],
}

/// Returns what is told of all cycles of a keeper of the start's state, with the number of workers
/// that the start names.
fn all_told<R: Threads + Wait + Sync, N: Gate + Watch + Sync, M: Folder, T: Folder + Sync>(
    threading: &Threading<'_, R, N>,
    begun: &Begun<'_>,
    opened: Vec<Opened>,
    folders: &mut Vec<Folders<M, T>>,
    keeper: &mut Keeper,
) -> Result<Vec<Told>, Failure>
    requires state { keeper.old ≡ begun.now.start.now.trusted }
    requires opened { AllZip IsOpened
        (⟦<Vec<Folders<M, T>> as HasMirrors>⟧.mirrors folders.old) opened.items }
    ensures told { IfOk result (λ all. AreToldOn begun.now.start.now.detail
        (⟦<Vec<Folders<M, T>> as HasMirrors>⟧.mirrors folders.old)
        (first_of begun.now.start.now begun.now.wanted.now) all.items) }
    ensures state { IfOk result (λ all. keeper.new
        ≡ last_state (first_of begun.now.start.now begun.now.wanted.now) all.items) }
    ensures cause { IfErr result (IsCauseToRead
        (⟦<Vec<Folders<M, T>> as HasMirrors>⟧.mirrors folders.old)
        (⟦<Vec<Folders<M, T>> as HasMirrors>⟧.mirrors folders.new)) }
{
    let mut all = Vec::new(begun.start.alloc);
    for one in opened {
        let here = &mut folders[all.len()];
        all.push(told(threading, begun, one, here, keeper)?)?;
    }
    Ok(all)
}

/// Returns what is told of one cycle from the keeper's state, which is then the outcome's.
fn told<R: Threads + Wait + Sync, N: Gate + Watch + Sync, M: Folder, T: Folder + Sync>(
    threading: &Threading<'_, R, N>,
    begun: &Begun<'_>,
    one: Opened,
    here: &mut Folders<M, T>,
    keeper: &mut Keeper,
) -> Result<Told, Failure>
    requires metadata { IsPart (M.gives here.old.metadata) one.metadata }
    requires names { (T.gives here.old.targets).lists (map string_bytes one.names.items) ≡ true }
    ensures told { IfOk result (IsToldOn begun.now.start.now.detail
        (mirror_of (M.gives here.old.metadata) (T.gives here.old.targets))
        (from_state (first_of begun.now.start.now begun.now.wanted.now) keeper.old)) }
    ensures state { IfOk result (λ t. keeper.new ≡ t.outcome.trusted) }
    ensures same { AllZip IsSame (⟦<Folders<M, T> as HasMirrors>⟧.mirrors here.old)
        (⟦<Folders<M, T> as HasMirrors>⟧.mirrors here.new) }
    ensures cause { IfErr result (IsCauseToRead
        (⟦<Folders<M, T> as HasMirrors>⟧.mirrors here.old)
        (⟦<Folders<M, T> as HasMirrors>⟧.mirrors here.new)) }
{
    let Opened {
        mut metadata,
        names,
    } = one;
    let start = begun.start;
    let course = course(threading, begun, &mut metadata, &mut here.metadata, keeper)?;
    keeper.trust(&course)?;
    let stop = why_lines(start, &metadata.repo.metadata, &course)?;
    let readers = Readers {
        rt: threading.rt,
        threads: start.threads(),
    };
    let known = measure(&readers, start.alloc, &course, &mut here.targets, names)?;
    let told = told_of(start, course, stop, &known)?;
    Ok(told)
}

/// Returns the course from the keeper's state, for which metadata files are read when they are
/// looked up.
fn course<R: Threads + Wait + Sync, N: Gate + Watch + Sync, M: Folder>(
    threading: &Threading<'_, R, N>,
    begun: &Begun<'_>,
    metadata: &mut Metadata,
    folder: &mut M,
    keeper: &mut Keeper,
) -> Result<Course, Failure>
    requires part { IsPart (M.gives folder.old) metadata.old }
    ensures part { OnOk result (IsPart (M.gives folder.old) metadata.new) }
    ensures settled { IfOk result (IsSettledOn
        (from_state (first_of begun.now.start.now begun.now.wanted.now) keeper.old)
        metadata.new) }
    ensures state { keeper.new ≡ keeper.old }
    ensures same { IsSameFolder (M.gives folder.old) (M.gives folder.new) }
    ensures cause { IfErr result (IsCauseToEnd (M.gives folder.old) (M.gives folder.new)) }
{
    let start = begun.start;
    let asked = Asked {
        alloc: start.alloc,
        moment: start.moment,
        wanted: begun.wanted,
        limits: start.limits,
        workers: start.threads(),
    };
    Ok(metadata.follow(folder, threading, keeper, &asked)?)
}
