//! Keys that sign.

ghost use Rattle.std.specs.Prelude.{◌≡◌, IfOk, replicate};
ghost use Rattle.lms.specs.declared.kind.Width.TheVariants as width;

use cjson::NoMemory;
use lms::{Height, Secret, Width};
use std::alloc::Global;

/// A key under an id.
#[derive(Drop)]
pub struct Signer {
    /// The `keyid` of the key's signatures.
    pub id: String,
    /// The key.
    pub secret: Secret,
}

/// Returns the key of W8 and key byte `s`: its identifier is 16 bytes `s`, and it is made from 32
/// bytes `s` (RFC 8554 appendix A). No leaf is used. Allocates 2 KiB at height 5, 64 KiB at height
/// 10 and 2 MiB at height 15. Fails only if out of memory.
pub fn secret(alloc: Global, s: u8, h: Height) -> Result<Secret, NoMemory>
    ensures key { IfOk result (λ key. key ≡ record {
      kind = record { width = width.W8; height = h };
      id = replicate 16 s;
      seed = replicate 32 s;
      used = 0;
    }) }
{
    secret_of(alloc, s, Width::W8, h)
}

/// As [`secret`], for a key of width `w`.
pub fn secret_of(alloc: Global, s: u8, w: Width, h: Height) -> Result<Secret, NoMemory>
    ensures key { IfOk result (λ key. key ≡ record {
      kind = record { width = w; height = h };
      id = replicate 16 s;
      seed = replicate 32 s;
      used = 0;
    }) }
{
    Secret::of(alloc, [s; 16], [s; 32], w, h)
}
