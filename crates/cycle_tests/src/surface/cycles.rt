//! Runs and keepers.

use super::repository::{repository, wanted};
use crate::repositories::{first_state, limits_of, moment};
use cjson::NoMemory;
use cycle::{
    Accepted, End, Fault, Keeper, Limits, Open, Outcome, Repo, Round, Stats, Step, Trusted,
    Verdict, run, run_alone,
};
use std::process::Abort;
use std::sync::Wait;
use std::thread::Threads;

/// Returns whether both targets are good, by their roles, and the role is accepted.
fn is_good(outcome: &Outcome) -> bool {
    let trusted: &Trusted = outcome.trusted();
    let accepted: &[Accepted] = outcome.accepted();
    let end: End = outcome.end();
    let [first, second] = outcome.verdicts() else {
        return false;
    };
    trusted.is_ready()
        && accepted.len() == 1
        && end == End::Ready
        && is_from(first, "targets", 3)
        && is_from(second, "a", 1)
}

/// Returns whether the target is listed by this role with this length, and its file accepted.
fn is_from(verdict: &Verdict, by: &str, bytes: u64) -> bool {
    match verdict {
        Verdict::Good { role, length } => role.as_str() == by && *length == bytes,
        _ => false,
    }
}

/// Returns whether a verdict for a missing file, a refused role, and others are distinguished.
fn name_of(verdict: &Verdict) -> &'static str {
    match verdict {
        Verdict::Good { role: _, length: _ } => "good",
        Verdict::NotFound => "not found",
        Verdict::LimitReached => "limit reached",
        Verdict::RoleRefused { role: _, fault: _ } => "role refused",
        Verdict::FileRefused(_) => "file refused",
        Verdict::NotSearched => "not searched",
    }
}

#[test]
fn limits(rt: HostRuntime) {
    for (roles, plan, is_some) in [
        (1, 0, true),
        (256, 4096, true),
        (0, 0, false),
        (257, 0, false),
        (1, 4097, false),
    ] {
        let limits: Option<Limits> = Limits::new(roles, plan);
        assert_eq!(rt; limits.is_some(), is_some, "{roles} {plan}");
    }
}

#[test]
fn runs(rt: HostRuntime) {
    let alloc = rt.alloc();
    let repo = repository(&rt);
    let trusted = first_state(&rt, &repo);
    let wanted = wanted(&rt);
    let (now, limits) = (moment(&rt), limits_of(&rt, 4096));
    let alone: Result<Outcome, NoMemory> = run_alone(alloc, &trusted, &repo, now, &wanted, &limits);
    let alone = alone.expect(&rt, "memory");
    assert!(rt; is_good(&alone));
    let stats: Stats = alone.stats();
    assert_eq!(rt; (stats.planned, stats.taken_over), (0, 0));
    let beside: Result<Outcome, NoMemory> = run(
        &rt, alloc, &trusted, &repo, now, &wanted, &limits, 2, &Open,
    );
    assert!(rt; is_good(&beside.expect(&rt, "memory")));
}

#[test]
fn refusals(rt: HostRuntime) {
    let alloc = rt.alloc();
    let mut repo = repository(&rt);
    let trusted = first_state(&rt, &repo);
    let wanted = wanted(&rt);
    let _ = repo.targets.remove("x/1");
    let _ = repo.metadata.remove("a.json");
    let (now, limits) = (moment(&rt), limits_of(&rt, 0));
    let outcome = run_alone(alloc, &trusted, &repo, now, &wanted, &limits).expect(&rt, "memory");
    let [_, second] = outcome.verdicts() else {
        panic!(rt; "two verdicts");
    };
    assert_eq!(rt; name_of(second), "role refused");
    let _ = repo.metadata.remove("timestamp.json");
    let outcome = run_alone(alloc, &trusted, &repo, now, &wanted, &limits).expect(&rt, "memory");
    assert_eq!(rt;
        outcome.end(),
        End::Stopped(Step::Timestamp, Fault::Missing)
    );
    for verdict in outcome.verdicts() {
        assert_eq!(rt; name_of(verdict), "not searched");
    }
}

/// Returns whether a cycle and two more are good, each from the state of the one before.
fn keeps<R: Abort + Threads + Wait + Sync>(
    rt: &R,
    keeper: &mut Keeper,
    repo: &Repo,
    wanted: &[String],
) -> bool {
    let (now, limits) = (moment(rt), limits_of(rt, 4096));
    let first: Result<Outcome, NoMemory> = keeper.cycle(rt, repo, now, wanted, &limits, 0, &Open);
    let rounds = [Round { repo, now, wanted }, Round { repo, now, wanted }];
    let more: Result<Vec<Outcome>, NoMemory> = keeper.cycles(rt, &rounds, &limits, 2, &Open);
    let (first, more) = (first.expect(rt, "memory"), more.expect(rt, "memory"));
    is_good(&first) && more.len() == 2 && more.iter().all(is_good)
}

#[test]
fn keepers(rt: HostRuntime) {
    let repo = repository(&rt);
    let trusted = first_state(&rt, &repo);
    let wanted = wanted(&rt);
    let keeper: Result<Keeper, NoMemory> = Keeper::new(rt.alloc(), trusted, 64);
    let mut keeper = keeper.expect(&rt, "memory");
    assert!(rt; keeps(&rt, &mut keeper, &repo, &wanted));
    assert!(rt; keeper.trusted().is_ready());
}
