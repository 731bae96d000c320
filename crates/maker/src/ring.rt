//! The keys that a script makes.

ghost use Rattle.std.specs.Prelude.{◌<◌, IfSome, IfOk, All, length};

use crate::objects::{key_object, put};
use crate::refusal::Refusal;
use keys::key_id;
use lms::{Height, Public, Width};
use seals::{Signer, secret_of};
use serde_json::{Map, Value};
use std::alloc::Global;

/// Returns the key of a key byte, under the id of its key object (TUF 1.0 section 4.2).
pub fn new_signer(
    alloc: Global,
    byte: u8,
    width: Width,
    height: Height,
) -> Result<Signer, Refusal> {
    let secret = secret_of(alloc, byte, width, height)?;
    let object = key_object(alloc, &secret.public())?;
    let id = key_id(alloc, &object)?;
    Ok(Signer { id, secret })
}

/// Returns whether it is the key of the key byte, whose identifier is 16 times the byte.
fn is_of_byte(signer: &Signer, byte: u8) -> bool {
    signer.secret.public().bytes()[8] == byte
}

/// Returns the place of the key of the byte.
pub fn place_of(signers: &[Signer], byte: u8) -> Result<usize, Refusal>
    ensures place { IfOk result (λ p. p < length signers.now) }
{
    let place = signers.iter().position(|signer| is_of_byte(signer, byte));
    place.ok_or(Refusal::Line)
}

/// Returns the places of the keys of the bytes, in order.
pub fn places_of(alloc: Global, signers: &[Signer], keys: &[u8]) -> Result<Vec<usize>, Refusal>
    ensures places { IfOk result (λ by. All (λ p. p < length signers.now) by.items) }
{
    let mut places = Vec::new(alloc);
    for byte in keys {
        places.push(place_of(signers, *byte)?)?;
    }
    Ok(places)
}

/// Returns the ids of the keys of the bytes, in order.
pub fn ids_of(alloc: Global, signers: &[Signer], keys: &[u8]) -> Result<Vec<Value>, Refusal> {
    let mut ids = Vec::new(alloc);
    for byte in keys {
        let place = place_of(signers, *byte)?;
        ids.push(Value::try_from_str(alloc, signers[place].id.as_str())?)?;
    }
    Ok(ids)
}

/// Puts the key objects of the keys of the bytes under their ids.
pub fn put_keys(
    alloc: Global,
    members: &mut Map<String, Value>,
    signers: &[Signer],
    keys: &[u8],
) -> Result<(), Refusal> {
    for byte in keys {
        let signer = &signers[place_of(signers, *byte)?];
        let object = key_object(alloc, &signer.secret.public())?;
        put(alloc, members, signer.id.as_str(), object)?;
    }
    Ok(())
}
