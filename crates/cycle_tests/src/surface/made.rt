//! Test repositories.

use cjson::{NoMemory, canonical, signed_bytes};
use lms::{Height, Secret, verify};
use maker::{MakeFault, Signer, make, seal, secret};
use serde_json::json;

#[test]
fn scripts_are_followed(rt: HostRuntime) {
    let script = "key 1 5 4\ntop root 1 1\ntop timestamp 1 1\ntop snapshot 1 1\ntop targets 1 1\n\
write root 1 1\n";
    let files: Result<Vec<(String, Vec<u8>)>, MakeFault> = make(rt.alloc(), script);
    let files = files.expect(&rt, "memory");
    assert_eq!(rt; files.len(), 1);
    for (name, _) in &files {
        assert_eq!(rt; name.as_str(), "metadata/1.root.json");
    }
    let fault = make(rt.alloc(), "key 1 5 4\nkey 1 5 4\n").err();
    assert_eq!(rt; fault, Some(MakeFault::Script(2)));
}

#[test]
fn files_are_sealed(rt: HostRuntime) {
    let alloc = rt.alloc();
    let key: Result<Secret, NoMemory> = secret(alloc, 1, Height::H5);
    let key = key.expect(&rt, "memory");
    let public = key.public();
    let id = String::from_str(alloc, "one").expect(&rt, "memory");
    let mut signers = [Signer { id, secret: key }];
    let value = json!(in alloc; { "_type": "mirrors" }).expect(&rt, "memory");
    canonical(alloc, &value).expect(&rt, "memory");
    let file: Result<Vec<u8>, MakeFault> = seal(alloc, &value, &mut signers, &[0]);
    let doc = signed_bytes(alloc, file.expect(&rt, "a file").as_slice()).expect(&rt, "a document");
    assert_eq!(rt; doc.entries().len(), 1);
    let sig = hex::decode(alloc, doc.entries()[0].sig.as_str()).expect(&rt, "digits");
    assert!(rt; verify(&public, doc.bytes(), &sig));
}
