//! Keys, signatures and their checks.

use cjson::NoMemory;
use lms::{Height, Public, Secret, SignFault, Width, verify};

#[test]
fn keys_sign(rt: HostRuntime) {
    let secret: Result<Secret, NoMemory> = Secret::of(
        rt.alloc(),
        [1; 16],
        [2; 32],
        Width::W4,
        Height::H5,
    );
    let mut secret = secret.expect(&rt, "memory");
    let public: Public = secret.public();
    let sig: Result<Vec<u8>, SignFault> = secret.sign(b"abc");
    let sig = sig.expect(&rt, "memory");
    let read: Option<Public> = Public::read(public.bytes());
    assert!(rt; read == Some(public));
    assert_eq!(rt; sig.len(), 2348);
    let is_valid: bool = verify(&public, b"abc", &sig);
    assert!(rt; is_valid);
    assert!(rt; !verify(&public, b"abd", &sig));
}

#[test]
fn width_is_w8_unless_given(rt: HostRuntime) {
    let secret: Result<Secret, NoMemory> = Secret::new(rt.alloc(), [1; 16], [2; 32], Height::H5);
    let mut secret = secret.expect(&rt, "memory");
    let public = secret.public();
    let sig = secret.sign(b"abc").expect(&rt, "a signature");
    assert!(rt; sig.len() == 1292 && verify(&public, b"abc", &sig));
}

#[test]
fn leaves_are_used_up(rt: HostRuntime) {
    let mut secret = Secret::of(rt.alloc(), [1; 16], [2; 32], Width::W4, Height::H5).expect(
        &rt, "a key",
    );
    for _ in 0..32 {
        secret.sign(b"abc").expect(&rt, "a signature");
    }
    assert_eq!(rt; secret.sign(b"abc").err(), Some(SignFault::Used));
}

#[test]
fn heights(rt: HostRuntime) {
    assert!(rt; Height::H5 != Height::H10);
    assert!(rt; Height::H10 != Height::H15);
}
