//! Trusted states and the workflow up to the top-level targets file.

use super::repository::repository;
use crate::repositories::{first_state, metadata, moment};
use cjson::NoMemory;
use keys::Direct;
use meta::Fault;
use rolechain::{End, StateFault, Step, Trusted, advance};

#[test]
fn states(rt: HostRuntime) {
    let repo = repository(&rt);
    let root = metadata(&rt, &repo, "1.root.json");
    let trusted: Result<Trusted, StateFault> = Trusted::from_root(rt.alloc(), root);
    let trusted = trusted.expect(&rt, "memory");
    assert!(rt; !trusted.is_ready() && trusted.root().bytes() == root);
    let text: Result<Vec<u8>, NoMemory> = trusted.to_text(rt.alloc());
    let text = text.expect(&rt, "memory");
    let read: Result<Trusted, StateFault> = Trusted::from_text(rt.alloc(), text.as_slice());
    let copy: Result<Trusted, NoMemory> = read.expect(&rt, "memory").copy();
    assert!(rt;
        copy.expect(&rt, "memory")
            .to_text(rt.alloc())
            .expect(&rt, "memory")
            == text
    );
    let (timestamp, snapshot) = (trusted.timestamp(), trusted.snapshot());
    assert!(rt; timestamp.is_none() && snapshot.is_none() && trusted.targets().is_none());
}

#[test]
fn refused_states(rt: HostRuntime) {
    let root = Trusted::from_root(rt.alloc(), b"{}").err();
    assert_eq!(rt; root, Some(StateFault::Malformed));
    let text = Trusted::from_text(rt.alloc(), b"{}").err();
    assert_eq!(rt; text, Some(StateFault::Malformed));
    let long = Vec::from_elem(rt.alloc(), b' ', 512_001).expect(&rt, "memory");
    let root = Trusted::from_root(rt.alloc(), long.as_slice()).err();
    assert_eq!(rt; root, Some(StateFault::TooLong));
}

#[test]
fn workflow(rt: HostRuntime) {
    let mut repo = repository(&rt);
    let trusted = first_state(&rt, &repo);
    let result: Result<(Trusted, End), NoMemory> = advance(
        rt.alloc(),
        &trusted,
        &repo,
        moment(&rt),
        &mut Direct,
    );
    let (state, end) = result.expect(&rt, "memory");
    assert_eq!(rt; end, End::Ready);
    assert!(rt; state.is_ready());
    let _ = repo.metadata.remove("snapshot.json");
    let (_, end) = advance(rt.alloc(), &trusted, &repo, moment(&rt), &mut Direct).expect(
        &rt, "a moment",
    );
    assert_eq!(rt; end, End::Stopped(Step::Snapshot, Fault::Missing));
}
