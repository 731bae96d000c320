//! Canonical texts and documents.

use cjson::{Canon, Doc, DocFault, Entry, Tree, canonical, canonical_text, signed_bytes};
use serde_json::Value;

/// A file with an entry.
const FILE: &[u8] =
    b"{\"signatures\":[{\"keyid\":\"k\",\"sig\":\"00\"}],\"signed\":{ \"b\":1, \"a\":[] }}";

/// The canonical text of what it signs.
const SIGNED: &[u8] = b"{\"a\":[],\"b\":1}";

#[test]
fn documents(rt: HostRuntime) {
    let doc: Doc = signed_bytes(rt.alloc(), FILE).expect(&rt, "a document");
    let tree: &Tree = doc.tree();
    let bytes: &[u8] = doc.bytes();
    let entries: &[Entry] = doc.entries();
    let text: Result<Vec<u8>, Canon> = canonical_text(rt.alloc(), tree);
    let [entry] = entries else {
        panic!(rt; "one entry");
    };
    assert_eq!(rt; (entry.keyid.as_str(), entry.sig.as_str()), ("k", "00"));
    assert_eq!(rt;
        (bytes, text.expect(&rt, "memory").as_slice()),
        (SIGNED, SIGNED)
    );
}

#[test]
fn faults(rt: HostRuntime) {
    let rows = [
        ("{", DocFault::NotJson),
        ("[]", DocFault::NotObject),
        (
            "{\"signatures\":{},\"signed\":{\"a\":1.5}}",
            DocFault::Float,
        ),
        ("{\"signatures\":{},\"signed\":{}}", DocFault::BadSignatures),
    ];
    for (file, fault) in rows {
        let found = signed_bytes(rt.alloc(), file.as_bytes()).err();
        assert_eq!(rt; found, Some(fault), "{file}");
    }
}

#[test]
fn values(rt: HostRuntime) {
    let list = Value::from_slice(rt.alloc(), b" [ 1 ]").expect(&rt, "a value");
    let text: Result<Vec<u8>, Canon> = canonical(rt.alloc(), &list);
    assert_eq!(rt; text.expect(&rt, "a text").as_slice(), b"[1]".as_slice());
    let number = Value::from_slice(rt.alloc(), b"1.5").expect(&rt, "a value");
    assert_eq!(rt; canonical(rt.alloc(), &number).err(), Some(Canon::Float));
}
