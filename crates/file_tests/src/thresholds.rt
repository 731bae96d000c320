//! A count of signers whose judge is out of memory.

use crate::judges::Counting;
use cjson::{NoMemory, signed_bytes};
use keys::{KeyRing, RoleKeys, enough, key_id};
use lms::{Height, Secret};
use serde_json::Value;
use std::process::Abort;

/// The canonical text of what is signed.
const SIGNED: &[u8] = b"{\"a\":1,\"b\":[]}";

/// The id of a key, the member of it in an object of keys, and an entry by it.
struct Signer {
    id: String,
    member: String,
    entry: String,
}

impl Drop for Signer {
    fn drop(self) {
        let Signer { id, member, entry } = self;
    }
}

impl Signer {
    fn new<R: Abort + AllocGlobal>(rt: &R, seed: u8) -> Signer {
        let alloc = rt.alloc();
        let secret = Secret::new(alloc, [seed; 16], [seed; 32], Height::H5);
        let mut secret = secret.expect(rt, "memory");
        let public = hex::encode(alloc, *secret.public().bytes()).expect(rt, "memory");
        let key = format!(in alloc;
            "{{\"scheme\":\"lms-sha256\",\"keytype\":\"lms\",\
\"keyval\":{{\"public\":\"{public}\"}}}}"
        );
        let key = key.expect(rt, "memory");
        let id = key_id(alloc, &value_of(rt, key.as_str())).expect(rt, "an id");
        let sig = secret.sign(SIGNED).expect(rt, "a signature");
        let sig = hex::encode(alloc, sig).expect(rt, "memory");
        let member = format!(in alloc; "\"{id}\":{key}");
        let entry = format!(in alloc; "{{\"sig\":\"{sig}\",\"keyid\":\"{id}\"}}");
        Signer {
            id,
            member: member.expect(rt, "memory"),
            entry: entry.expect(rt, "memory"),
        }
    }
}

fn value_of<R: Abort + AllocGlobal>(rt: &R, json: &str) -> Value {
    Value::from_slice(rt.alloc(), json.as_bytes()).expect(rt, "a value")
}

fn ring<R: Abort + AllocGlobal>(rt: &R, one: &Signer, two: &Signer) -> KeyRing {
    let json = format!(in rt.alloc(); "{{{},{}}}", one.member, two.member);
    let value = value_of(rt, json.expect(rt, "memory").as_str());
    let ring = KeyRing::read(rt.alloc(), &value).expect(rt, "memory");
    ring.expect(rt, "a ring")
}

fn role<R: Abort + AllocGlobal>(rt: &R, one: &Signer, two: &Signer) -> RoleKeys {
    let json = format!(in rt.alloc();
        "{{\"keyids\":[\"{}\",\"{}\"],\"threshold\":2}}",
        one.id, two.id
    );
    let value = value_of(rt, json.expect(rt, "memory").as_str());
    let role = RoleKeys::read(rt.alloc(), &value).expect(rt, "memory");
    role.expect(rt, "a role")
}

/// Returns the result for two valid entries, if the judge is out of memory at one of its checks.
fn result<R: Abort + AllocGlobal>(rt: &R, judge: &mut Counting) -> Result<bool, NoMemory> {
    let alloc = rt.alloc();
    let (one, two) = (Signer::new(rt, 1), Signer::new(rt, 2));
    let file = format!(in alloc;
        "{{\"signatures\":[{},{}],\"signed\":{{ \"b\" : [ ], \"a\" : 1 }}}}",
        one.entry, two.entry
    );
    let doc = signed_bytes(alloc, file.expect(rt, "memory").as_bytes()).expect(rt, "a document");
    let (ring, role) = (ring(rt, &one, &two), role(rt, &one, &two));
    enough(alloc, &doc, "root.json", &ring, &role, judge)
}

#[test]
fn judge_without_memory(rt: HostRuntime) {
    for (refused_at, wanted) in [(1, Err(NoMemory)), (2, Err(NoMemory)), (3, Ok(true))] {
        let mut judge = Counting {
            checks: 0,
            refused_at,
        };
        assert_eq!(rt; result(&rt, &mut judge), wanted);
        assert_eq!(rt; judge.checks, if refused_at < 3 { refused_at } else { 2 });
    }
}
