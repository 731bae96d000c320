//! Metadata files, moments and names.

use super::repository::repository;
use crate::repositories::{first_state, metadata, moment};
use cjson::{Doc, NoMemory, signed_bytes};
use cycle::Repo;
use examine::{Examined, Expect, Expectation, File, Kind, Listed, examine};
use keys::{Direct, KeyRing, RoleKeys};
use meta::names::{digest_name, role_name, root_name, version_name};
use meta::{
    Delegations, Fault, Header, Listing, Moment, Named, Part, ReadFault, Root, Snapshot, Target,
    Targets, Timestamp, read_root, read_snapshot, read_targets, read_timestamp,
};
use rolechain::{Trusted, advance};
use std::process::Abort;

/// Returns the state after a cycle over the repository.
fn ready_state<R: Abort + AllocGlobal>(rt: &R, repo: &Repo) -> Trusted {
    let first = first_state(rt, repo);
    advance(rt.alloc(), &first, repo, moment(rt), &mut Direct)
        .expect(rt, "memory")
        .0
}

/// Returns the document of a file of the repository.
fn document<R: Abort + AllocGlobal>(rt: &R, repo: &Repo, name: &str) -> Doc {
    signed_bytes(rt.alloc(), metadata(rt, repo, name)).expect(rt, "a document")
}

#[test]
fn readings(rt: HostRuntime) {
    let alloc = rt.alloc();
    let repo = repository(&rt);
    let doc = document(&rt, &repo, "1.root.json");
    let root: Result<Root, ReadFault> = read_root(alloc, &doc);
    assert_eq!(rt; root.expect(&rt, "a root").header().version.get(), 1);
    assert_eq!(rt;
        read_timestamp(alloc, &doc).err(),
        Some(ReadFault::Malformed)
    );
    let doc = document(&rt, &repo, "timestamp.json");
    let timestamp: Result<Timestamp, ReadFault> = read_timestamp(alloc, &doc);
    assert_eq!(rt; timestamp.expect(&rt, "memory").header().version.get(), 1);
    let doc = document(&rt, &repo, "snapshot.json");
    let snapshot: Result<Snapshot, ReadFault> = read_snapshot(alloc, &doc);
    assert_eq!(rt; snapshot.expect(&rt, "memory").files().len(), 2);
    let doc = document(&rt, &repo, "targets.json");
    let targets: Result<Targets, ReadFault> = read_targets(alloc, &doc);
    assert_eq!(rt; targets.expect(&rt, "memory").targets().len(), 1);
}

#[test]
fn examinations(rt: HostRuntime) {
    let repo = repository(&rt);
    let state = first_state(&rt, &repo);
    let root = state.root().reading();
    let expect = Expect {
        kind: Kind::Timestamp { trusted: None },
        file: Expectation {
            name: "timestamp.json",
            listed: Listed::NotDue,
            ring: root.ring(),
            role: root.timestamp(),
        },
    };
    let now = moment(&rt);
    let examined: Result<Examined, NoMemory> = examine(
        rt.alloc(),
        &expect,
        &repo,
        now,
        &mut Direct,
    );
    assert!(rt;
        matches!(
            examined.expect(&rt, "memory"),
            Examined::Good(File::Timestamp(_))
        )
    );
}

#[test]
fn moments(rt: HostRuntime) {
    let read: Option<Moment> = Moment::read("1970-01-02T00:00:01Z");
    let at: Option<Moment> = Moment::at(86_401);
    let (read, at) = (read.expect(&rt, "a moment"), at.expect(&rt, "a moment"));
    assert!(rt; read == at && !read.is_before(at));
    assert_eq!(rt; (read.day(), read.second()), (1, 1));
    assert!(rt; Moment::read("1970-01-02").is_none() && Moment::at(u64::MAX).is_none());
}

#[test]
fn parts_of_a_root(rt: HostRuntime) {
    let repo = repository(&rt);
    let state = ready_state(&rt, &repo);
    let part: &Part<Root> = state.root();
    let copy: Result<Part<Root>, NoMemory> = part.copy();
    let is_copied = copy.expect(&rt, "memory").bytes() == part.bytes();
    let root: &Root = part.reading();
    let header: &Header = root.header();
    let ring: &KeyRing = root.ring();
    let role: &RoleKeys = root.root();
    let thresholds = [
        role.threshold.get(),
        root.timestamp().threshold.get(),
        root.snapshot().threshold.get(),
        root.targets().threshold.get(),
    ];
    assert!(rt; is_copied && !root.consistent());
    assert_eq!(rt; (header.version.get(), ring.keys().len()), (1, 1));
    assert_eq!(rt; thresholds, [1; 4]);
}

#[test]
fn listings(rt: HostRuntime) {
    let repo = repository(&rt);
    let state = ready_state(&rt, &repo);
    let timestamp: &Part<Timestamp> = state.timestamp().expect(&rt, "a timestamp");
    let listing: &Listing = timestamp.reading().snapshot();
    let versions = (
        listing.version.get(),
        timestamp.reading().header().version.get(),
    );
    assert_eq!(rt; versions, (1, 1));
    let snapshot: &Part<Snapshot> = state.snapshot().expect(&rt, "a snapshot");
    let bytes = snapshot.bytes();
    let fault: Result<Option<Fault>, NoMemory> = listing.check(
        "snapshot.json",
        bytes,
        Some(2_000_000),
        &mut Direct,
    );
    assert_eq!(rt; fault.expect(&rt, "memory"), None);
    let fault = listing.check("snapshot.json", b"", None, &mut Direct);
    assert_eq!(rt; fault.expect(&rt, "memory"), Some(Fault::LengthWrong));
    let files: &[Named] = snapshot.reading().files();
    let found: Option<&Named> = snapshot.reading().find("a.json");
    let version = snapshot.reading().header().version.get();
    assert!(rt; files.len() == 2 && found.is_some() && version == 1);
}

#[test]
fn listed_targets(rt: HostRuntime) {
    let repo = repository(&rt);
    let state = ready_state(&rt, &repo);
    let targets: &Targets = state.targets().expect(&rt, "targets").reading();
    let all: &[Target] = targets.targets();
    let delegations: Option<&Delegations> = targets.delegations();
    let version = targets.header().version.get();
    assert!(rt; all.len() == 1 && delegations.is_some() && version == 1);
    let target: &Target = targets.find("abc.txt").expect(&rt, "a target");
    let copy: Result<Target, NoMemory> = target.copy(rt.alloc());
    assert_eq!(rt; copy.expect(&rt, "memory").length.get(), 3);
    let fault: Result<Option<Fault>, NoMemory> = target.check("abc.txt", b"abc", None, &mut Direct);
    assert_eq!(rt; fault.expect(&rt, "memory"), None);
    let fault = target.check("abc.txt", b"abd", None, &mut Direct);
    assert_eq!(rt; fault.expect(&rt, "memory"), Some(Fault::HashWrong));
}

#[test]
fn names(rt: HostRuntime) {
    let alloc = rt.alloc();
    assert_eq!(rt;
        root_name(alloc, 2).expect(&rt, "memory").as_str(),
        "2.root.json"
    );
    assert_eq!(rt;
        role_name(alloc, "a").expect(&rt, "memory").as_str(),
        "a.json"
    );
    assert_eq!(rt;
        version_name(alloc, true, 3, "a.json")
            .expect(&rt, "memory")
            .as_str(),
        "3.a.json"
    );
    assert_eq!(rt;
        version_name(alloc, false, 3, "a.json")
            .expect(&rt, "memory")
            .as_str(),
        "a.json"
    );
    assert_eq!(rt;
        digest_name(alloc, &[0xab, 1], "d/e")
            .expect(&rt, "memory")
            .as_str(),
        "d/ab01.e"
    );
}
