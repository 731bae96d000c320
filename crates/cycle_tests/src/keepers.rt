//! Cycles that cache verdicts, one of which is out of memory at a check.

use crate::repositories::{first_state, made, moment};
use file_tests::Counting;
use keys::{Direct, Judge};
use memory::{Cache, Kept};
use meta::Repo;
use rolechain::{End, Trusted, advance};
use std::process::Abort;

/// One key for all roles, in the first versions.
const OLDER: &str = "key 1 5
top root 1 1
top timestamp 1 1
top snapshot 1 1
top targets 1 1
write root 1 1
write targets 1 1
write snapshot 1 1
write timestamp 1 1
";

/// The same root, and the others in their second versions.
const NEWER: &str = "key 1 5
top root 1 1
top timestamp 1 1
top snapshot 1 1
top targets 1 1
write root 1 1
write targets 2 1
write snapshot 2 1
write timestamp 2 1
";

/// The result of a cycle: the text of its state, or None if it was out of memory, the number of
/// cache hits, and the number of checks by the inner judge.
struct Cycle {
    text: Option<Vec<u8>>,
    remembered: u64,
    checks: u32,
}

impl Drop for Cycle {
    fn drop(self) {
        let Cycle {
            text,
            remembered,
            checks,
        } = self;
    }
}

/// Returns the state of a cycle that ends ready, with a judge that is never out of memory.
fn plain<R: Abort + AllocGlobal>(rt: &R, trusted: &Trusted, repo: &Repo) -> Trusted {
    let done = advance(rt.alloc(), trusted, repo, moment(rt), &mut Direct);
    let (state, end) = done.expect(rt, "memory");
    assert_eq!(rt; end, End::Ready);
    state
}

/// Returns the text of the state after a cycle, or None if it was out of memory.
fn text_after<R: Abort + AllocGlobal, J: Judge>(
    rt: &R,
    trusted: &Trusted,
    repo: &Repo,
    judge: &mut J,
) -> Option<Vec<u8>> {
    let (state, _) = advance(rt.alloc(), trusted, repo, moment(rt), judge).ok()?;
    Some(state.to_text(rt.alloc()).expect(rt, "memory"))
}

/// Runs a cycle over a cache. The inner judge is out of memory at one of its checks, if it makes
/// that many.
fn remembering<R: Abort + AllocGlobal>(
    rt: &R,
    cache: &mut Cache,
    trusted: &Trusted,
    repo: &Repo,
    refused_at: u32,
) -> Cycle {
    let mut counting = Counting {
        checks: 0,
        refused_at,
    };
    let mut judge = Kept::new(cache, &mut counting);
    let text = text_after(rt, trusted, repo, &mut judge);
    let remembered = judge.taken_over_count();
    drop(judge);
    Cycle {
        text,
        remembered,
        checks: counting.checks,
    }
}

/// Runs three cycles that share a cache: the first over the older repository, the second over the
/// newer one, in which the inner judge is out of memory at one of its checks, and the third over
/// the newer one again. Returns the third.
fn third<R: Abort + AllocGlobal>(
    rt: &R,
    state: &Trusted,
    (older, newer): (&Repo, &Repo),
    refused_at: u32,
) -> Cycle {
    let mut cache = Cache::new(rt.alloc(), 8).expect(rt, "memory");
    remembering(rt, &mut cache, state, older, 0);
    let second = remembering(rt, &mut cache, state, newer, refused_at);
    assert!(rt; second.text.is_none());
    assert_eq!(rt; second.checks, refused_at);
    remembering(rt, &mut cache, state, newer, 0)
}

/// A cycle checks the signature of the timestamp, the digest and the signature of the snapshot, and
/// those of the targets file, in this order. The verdicts on signatures before the error are
/// cached. The rows have that check, and of the third cycle the number of cache hits and of checks
/// by the inner judge.
#[test]
fn refused_in_the_second_cycle(rt: HostRuntime) {
    let (older, newer) = (made(&rt, OLDER), made(&rt, NEWER));
    let state = plain(&rt, &first_state(&rt, &older), &older);
    let text = plain(&rt, &state, &newer).to_text(rt.alloc());
    let wanted = Some(text.expect(&rt, "memory"));
    let rows = [(1, 0, 5), (2, 1, 4), (3, 1, 4), (4, 2, 3), (5, 2, 3)];
    for (refused_at, remembered, checks) in rows {
        let third = third(&rt, &state, (&older, &newer), refused_at);
        assert!(rt; third.text == wanted, "{refused_at}");
        assert_eq!(rt; (third.remembered, third.checks), (remembered, checks));
    }
}
