//! Patterns, prefixes and searches.

ghost use Rattle.std.specs.Prelude.{◌≤◌};

use super::repository::repository;
use crate::repositories::{first_state, moment};
use cjson::NoMemory;
use cycle::Repo;
use deleg::{Accepted, Found, Search, matches, prefix_matches, search};
use keys::Direct;
use meta::Fault;
use rolechain::advance;
use std::process::Abort;

/// Searches for a path in the repository with a limit of 1 to 256, from the state after a cycle.
fn searched<R: Abort + AllocGlobal>(rt: &R, repo: &Repo, path: &str, limit: usize) -> Search
    requires least { 1 ≤ limit }
    requires most { limit ≤ 256 }
{
    let (alloc, now) = (rt.alloc(), moment(rt));
    let first = first_state(rt, repo);
    let (state, _) = advance(alloc, &first, repo, now, &mut Direct).expect(rt, "memory");
    assert!(rt; state.is_ready());
    let found: Result<Search, NoMemory> = search(
        alloc,
        &state,
        repo,
        now,
        path,
        limit,
        &mut Direct,
    );
    found.expect(rt, "memory")
}

#[test]
fn paths(rt: HostRuntime) {
    assert!(rt; matches("*.tgz", "foo.tgz"));
    assert!(rt; !matches("*", "a/b"));
    assert!(rt; prefix_matches("ba78", "abc"));
    assert!(rt; !prefix_matches("ba79", "abc"));
}

#[test]
fn listed_paths(rt: HostRuntime) {
    let repo = repository(&rt);
    for (path, wanted) in [("abc.txt", (3, 1)), ("x/1", (1, 2))] {
        let Search { found, accepted } = searched(&rt, &repo, path, 2);
        let Found::Listed {
            role: _,
            target,
            visited,
        } = found
        else {
            panic!(rt; "a path that isn't found");
        };
        let accepted: &[Accepted] = accepted.as_slice();
        let is_counted = accepted.len() == visited.saturating_sub(1);
        assert!(rt;
            is_counted && (target.length.get(), visited) == wanted,
            "{path}"
        );
    }
}

#[test]
fn other_paths(rt: HostRuntime) {
    let mut repo = repository(&rt);
    let found = searched(&rt, &repo, "y", 256).found;
    assert!(rt; matches!(found, Found::NotFound));
    let found = searched(&rt, &repo, "x/1", 1).found;
    assert!(rt; matches!(found, Found::LimitReached));
    let _ = repo.metadata.remove("a.json");
    let found = searched(&rt, &repo, "x/1", 2).found;
    let Found::RoleRefused { role, fault } = found else {
        panic!(rt; "a role that isn't refused");
    };
    assert!(rt; role.as_str() == "a" && fault == Fault::Missing);
}
