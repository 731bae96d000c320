//! Keys of a file, thresholds and judges.

use cjson::{Canon, NoMemory, signed_bytes};
use keys::{
    Algorithm, Ask, DigestAsk, Direct, Judge, KeyRing, RoleKeys, SignatureAsk, enough, key_id,
};
use lms::{Height, Secret, Width};
use serde_json::Value;
use sha2::{Digest, Sha256};

#[test]
fn rings_and_roles(rt: HostRuntime) {
    let alloc = rt.alloc();
    let keys = Value::from_slice(alloc, b"{\"k\":{}}").expect(&rt, "a value");
    let ring: Result<Option<KeyRing>, NoMemory> = KeyRing::read(alloc, &keys);
    let ring = ring.expect(&rt, "memory").expect(&rt, "a ring");
    let role = Value::from_slice(alloc, b"{\"keyids\":[\"k\"],\"threshold\":2}");
    let role = role.expect(&rt, "a value");
    let role: Result<Option<RoleKeys>, NoMemory> = RoleKeys::read(alloc, &role);
    let role = role.expect(&rt, "memory").expect(&rt, "a role");
    assert_eq!(rt; (role.ids.as_slice().len(), role.threshold.get()), (1, 2));
    let doc = signed_bytes(alloc, b"{\"signatures\":[],\"signed\":{}}").expect(&rt, "a document");
    let is_met: Result<bool, NoMemory> = enough(
        alloc,
        &doc,
        "root.json",
        &ring,
        &role,
        &mut Direct,
    );
    assert!(rt; !is_met.expect(&rt, "memory"));
}

/// What `printf {} | sha256sum` prints.
#[test]
fn ids(rt: HostRuntime) {
    let key = Value::from_slice(rt.alloc(), b"{}").expect(&rt, "a value");
    let id: Result<String, Canon> = key_id(rt.alloc(), &key);
    assert_eq!(rt;
        id.expect(&rt, "memory").as_str(),
        "44136fa355b3678a1146ad16f7e8649e94fb4fc21fe77e8310c060f61caaff8a"
    );
}

#[test]
fn digests_are_judged(rt: HostRuntime) {
    let digest: [u8; 32] = Sha256::digest(b"abc");
    for (bytes, is_so) in [(b"abc", true), (b"abd", false)] {
        let ask = Ask::Digest(DigestAsk {
            file: "abc.txt",
            algorithm: Algorithm::Sha256,
            bytes,
            digest: &digest,
        });
        let valid: Result<bool, NoMemory> = Direct.valid(&ask);
        assert!(rt; valid.expect(&rt, "memory") == is_so && ask.same(&ask));
    }
}

#[test]
fn signatures_are_judged(rt: HostRuntime) {
    let mut secret = Secret::of(rt.alloc(), [1; 16], [2; 32], Width::W4, Height::H5).expect(
        &rt, "a key",
    );
    let public = secret.public();
    let sig = hex::encode(rt.alloc(), secret.sign(b"abc").expect(&rt, "a signature")).expect(
        &rt,
        "a signature",
    );
    let one = Ask::Signature(SignatureAsk {
        file: "root.json",
        place: 0,
        public: &public,
        message: b"abc",
        sig: sig.as_str(),
    });
    let other = Ask::Signature(SignatureAsk {
        file: "root.json",
        place: 1,
        public: &public,
        message: b"abd",
        sig: sig.as_str(),
    });
    let (first, second) = (
        Direct.valid(&one).expect(&rt, "memory"),
        Direct.valid(&other).expect(&rt, "memory"),
    );
    assert!(rt; first && !second && !one.same(&other));
}
