//! Runs whose folders, files, clock and lines are in memory, so that contracts follow all of them.

use crate::found::{LINES, PLAIN, wanted};
use crate::repositories::{limits_of, made, metadata};
use cycle::{Open, Threading};
use failure::Failure;
use file_tests::{Desk, Kept, Memory};
use meta::Repo;
use std::alloc::Global;
use std::process::Abort;
use system::System;
use update::{Detail, First, Folders, Host, Locking, Settings, Terms, Wanted, Workers};

/// 2026-01-01T00:00:00Z, in seconds since 1970.
const SECONDS: u64 = 1_767_225_600;

/// Returns a folder of these files, whose names may not be changed by a run.
fn folder_of<R: Abort + AllocGlobal>(rt: &R, repo: &Repo, names: [&str; 4]) -> Memory {
    let mut files = Vec::new(rt.alloc());
    for name in names {
        let text = str::from_utf8(metadata(rt, repo, name)).expect(rt, "a text");
        files.push((name, text)).expect(rt, "memory");
    }
    Memory::of(rt.alloc(), files.as_slice(), u64::MAX).expect(rt, "memory")
}

/// Returns the folders of that repository, in memory.
fn folders<R: Abort + AllocGlobal>(rt: &R) -> Folders<Memory, Memory> {
    let repo = made(rt, PLAIN);
    let names = [
        "1.root.json",
        "timestamp.json",
        "snapshot.json",
        "targets.json",
    ];
    let targets = [("a", "a"), ("b", "bb"), ("c", "ccc")];
    Folders {
        metadata: folder_of(rt, &repo, names),
        targets: Memory::of(rt.alloc(), &targets, u64::MAX).expect(rt, "memory"),
    }
}

/// Returns a desk with that first root.
fn desk<R: Abort + AllocGlobal>(rt: &R) -> Desk {
    let repo = made(rt, PLAIN);
    let mut desk = Desk::new(rt.alloc(), Some(SECONDS));
    let root = metadata(rt, &repo, "1.root.json");
    desk.store("root", root).expect(rt, "memory");
    desk
}

/// Returns terms by which the four wanted paths are verified from a locked state.
fn terms<R: Abort + AllocGlobal>(rt: &R, alloc: Global) -> Terms<'static> {
    let mut paths = Vec::new(alloc);
    for path in wanted(rt) {
        paths.push(path).expect(rt, "memory");
    }
    Terms {
        settings: Settings {
            state: "state",
            locking: Locking::Needed,
            moment: None,
            limits: limits_of(rt, 16),
            workers: Workers::new(1).expect(rt, "workers"),
            out: "state",
            detail: Detail::Faults,
        },
        wanted: Wanted::Paths(paths),
    }
}

#[test]
fn a_run_in_memory_stores_state_and_copies(rt: HostRuntime) {
    let alloc = rt.alloc();
    let mut host = Host {
        system: desk(&rt),
        folders: folders(&rt),
        out: Vec::new(alloc),
    };
    let mut first = First {
        root: "root",
        state: "state",
        is_new: true,
    };
    let status = host.init(alloc, &first).expect(&rt, "a state");
    assert!(rt; status == 0 && host.out.as_slice() == b"root 1\n".as_slice());
    assert!(rt; matches!(host.init(alloc, &first), Err(Failure::State)));
    first.is_new = false;
    assert!(rt; host.init(alloc, &first).expect(&rt, "a state") == 0);
    host.out.clear();
    let (mut to, terms) = (Kept::working(), terms(&rt, alloc));
    let threading = Threading {
        rt: &rt,
        watch: &Open,
    };
    let status = host
        .verify_into(&threading, alloc, &terms, &mut to)
        .expect(&rt, "a status");
    assert!(rt; status == 1 && host.out.as_slice() == LINES.as_bytes());
    assert!(rt; host.system.is_locked("state") && to.left() == 0);
    assert!(rt; host.system.is_installed("to/a") && host.system.is_installed("to/b"));
    assert!(rt; !host.system.is_installed("to/c") && !host.system.is_installed("to/d"));
}
