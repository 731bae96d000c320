//! Results of checks, and whether two checks are the same.

use crate::plain::output;
use anyhow::{Context, Result, bail};
use keys::{Algorithm, Ask, DigestAsk, Direct, Judge, SignatureAsk};
use lms::Public;
use sessions::Step;
use std::alloc::Global;

/// A public key of a supported kind.
const PUBLIC: [u8; 56] = [
    0, 0, 0, 5, 0, 0, 0, 4, 1, 1, 1, 1, 1, 1, 1, 1, 1, 1, 1, 1, 1, 1, 1, 1, 2, 2, 2, 2, 2, 2, 2, 2,
    2, 2, 2, 2, 2, 2, 2, 2, 2, 2, 2, 2, 2, 2, 2, 2, 2, 2, 2, 2, 2, 2, 2, 2,
];

/// Returns whether the digest equals that of the text.
pub fn digest(alloc: Global, step: &Step) -> Result<String> {
    let algorithm = algorithm_of(step.word(0)?)?;
    let digest = hex::decode(alloc, step.word(1)?)?;
    let ask = DigestAsk {
        file: "a",
        algorithm,
        bytes: step.word(2)?.as_bytes(),
        digest: &digest,
    };
    output(alloc, Direct.valid(&Ask::Digest(ask))?)
}

fn algorithm_of(word: &str) -> Result<Algorithm> {
    match word {
        "sha256" => Ok(Algorithm::Sha256),
        "sha512" => Ok(Algorithm::Sha512),
        _ => bail!("no such algorithm"),
    }
}

/// Returns whether two checks are the same.
pub fn alike(alloc: Global, step: &Step) -> Result<String> {
    let public = Public::read(&PUBLIC).context("no public key")?;
    let one = ask_of(step.word(0)?, &public)?;
    let other = ask_of(step.word(1)?, &public)?;
    output(alloc, one.same(&other))
}

/// Returns the check of a signature in a file at a place, as `a:0`, or of a file's digest, as `a`.
fn ask_of<'a>(word: &'a str, public: &'a Public) -> Result<Ask<'a>> {
    match word.split_once(":") {
        Some((file, place)) => Ok(Ask::Signature(SignatureAsk {
            file,
            place: place.parse::<usize>()?,
            public,
            message: b"m",
            sig: "00",
        })),
        None => Ok(Ask::Digest(DigestAsk {
            file: word,
            algorithm: Algorithm::Sha256,
            bytes: b"m",
            digest: b"d",
        })),
    }
}
