//! Metadata files that are signed by given keys.

ghost use Rattle.std.specs.Prelude.{◌<◌, All, length};

use cjson::{Doc, canonical, signed_bytes};
use lms::{Height, Public, verify};
use seals::{MakeFault, Signer, seal, secret};
use serde_json::json;
use std::process::Abort;

/// A file that nobody signed.
const NOBODY: &str = "{\"signatures\":[],\"signed\":{\"_type\":\"mirrors\",\"expires\":\"\",\
\"spec_version\":\"1.0.0\",\"version\":1}}";

/// Returns the key of the byte, under the id.
fn signer<R: Abort + AllocGlobal>(rt: &R, id: &str, byte: u8) -> Signer {
    Signer {
        id: String::from_str(rt.alloc(), id).expect(rt, "memory"),
        secret: secret(rt.alloc(), byte, Height::H5).expect(rt, "memory"),
    }
}

/// Returns a file that is of no kind, signed by the signers at the places.
fn sealed<R: Abort + AllocGlobal>(
    rt: &R,
    signers: &mut [Signer],
    by: &[usize],
) -> Result<Vec<u8>, MakeFault>
    requires places { All (λ p. p < length signers.old) by.now }
{
    let alloc = rt.alloc();
    let value = json!(in alloc; {
        "_type": "mirrors",
        "expires": "",
        "spec_version": "1.0.0",
        "version": 1
    });
    let value = value.expect(rt, "memory");
    canonical(alloc, &value).expect(rt, "memory");
    seal(alloc, &value, signers, by)
}

/// Returns whether the entry at the place is the key's, and its signature is valid.
fn is_signed<R: Abort + AllocGlobal>(
    rt: &R,
    doc: &Doc,
    place: usize,
    id: &str,
    key: &Public,
) -> bool {
    let entry = doc.entries().get(place).expect(rt, "an entry");
    let sig = hex::decode(rt.alloc(), entry.sig.as_str()).expect(rt, "digits");
    entry.keyid.as_str() == id && verify(key, doc.bytes(), &sig)
}

#[test]
fn seals_in_order(rt: HostRuntime) {
    let mut signers = [signer(&rt, "one", 1), signer(&rt, "two", 2)];
    let first = signers[0].secret.public();
    let second = signers[1].secret.public();
    let file = sealed(&rt, &mut signers, &[1, 0, 1]).expect(&rt, "a file");
    let doc = signed_bytes(rt.alloc(), &file).expect(&rt, "a document");
    assert_eq!(rt; doc.entries().len(), 3);
    assert!(rt; is_signed(&rt, &doc, 0, "two", &second));
    assert!(rt; is_signed(&rt, &doc, 1, "one", &first));
    assert!(rt; is_signed(&rt, &doc, 2, "two", &second));
}

#[test]
fn nobody_seals(rt: HostRuntime) {
    let mut signers = [signer(&rt, "one", 1)];
    let file = sealed(&rt, &mut signers, &[]).expect(&rt, "a file");
    assert_eq!(rt; file.as_slice(), NOBODY.as_bytes());
}

#[test]
fn key_is_used_up(rt: HostRuntime) {
    let mut signers = [signer(&rt, "one", 1)];
    let public = signers[0].secret.public();
    let file = sealed(&rt, &mut signers, &[0; 32]).expect(&rt, "a file");
    let doc = signed_bytes(rt.alloc(), &file).expect(&rt, "a document");
    assert_eq!(rt; doc.entries().len(), 32);
    let outcome = sealed(&rt, &mut signers, &[0]);
    assert!(rt; matches!(outcome, Err(MakeFault::Used)));
    assert!(rt; signers[0].secret.public() == public);
}
