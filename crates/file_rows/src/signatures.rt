//! Signatures of other programs, and those of secret keys.

use crate::layers::Layers;
use crate::plain::{output, yes_or_no};
use anyhow::{Context, Result, bail};
use lms::{Height, MOST_SIGNATURE, Public, Secret, Width, verify};
use sessions::Step;
use sha2::{Digest, Sha256};
use std::alloc::Global;

/// A public key, a message, and a signature. A file of them has a line of hexadecimal digits for
/// each.
struct Vector {
    public: Vec<u8>,
    message: Vec<u8>,
    signature: Vec<u8>,
}

impl Drop for Vector {
    fn drop(self) {
        let Vector {
            public,
            message,
            signature,
        } = self;
    }
}

impl Vector {
    fn read(alloc: Global, text: &str) -> Result<Vector> {
        let mut lines = text.lines();
        Ok(Vector {
            public: hex::decode(alloc, lines.next().context("no public key")?)?,
            message: hex::decode(alloc, lines.next().context("no message")?)?,
            signature: hex::decode(alloc, lines.next().context("no signature")?)?,
        })
    }

    fn text(&self, alloc: Global) -> Result<String> {
        let public = hex::encode(alloc, self.public.as_slice())?;
        let message = hex::encode(alloc, self.message.as_slice())?;
        let signature = hex::encode(alloc, self.signature.as_slice())?;
        Ok(format!(in alloc; "{public}\n{message}\n{signature}\n")?)
    }

    /// Makes the change of the words: none, a signature a byte longer or shorter, or bits flipped
    /// in a byte of a part.
    fn change(&mut self, words: &[String]) -> Result<()> {
        match words {
            [] => Ok(()),
            [how] => self.resize(how.as_str()),
            [part, at, bits] => turn(self.part(part.as_str())?, at.as_str(), bits.as_str()),
            _ => bail!("no such change"),
        }
    }

    fn resize(&mut self, how: &str) -> Result<()> {
        let length = self.signature.len();
        let length = match how {
            "longer" => length.saturating_add(1),
            "shorter" => length.saturating_sub(1),
            _ => bail!("no such change"),
        };
        self.signature.resize(length, 0)?;
        Ok(())
    }

    fn part(&mut self, name: &str) -> Result<&mut Vec<u8>> {
        Ok(match name {
            "public" => &mut self.public,
            "message" => &mut self.message,
            "signature" => &mut self.signature,
            _ => bail!("no such part"),
        })
    }

    fn is_valid(&self) -> Result<bool> {
        let public = Public::read(&self.public).context("no public key")?;
        Ok(verify(&public, &self.message, &self.signature))
    }
}

fn turn(bytes: &mut Vec<u8>, at: &str, bits: &str) -> Result<()> {
    let byte = bytes.get_mut(at.parse::<usize>()?).context("no such byte")?;
    *byte ^= bits.parse::<u8>()?;
    Ok(())
}

/// Reads the vector in a file.
fn vector_in(layers: &Layers<'_>, name: &str) -> Result<Vector> {
    let text = layers.text(name)?;
    Vector::read(layers.alloc, text.as_str())
}

/// Returns whether the signature in a file is valid, after a change.
pub fn verified(layers: &Layers<'_>, step: &Step) -> Result<String> {
    let mut vector = vector_in(layers, step.word(0)?)?;
    vector.change(step.words_behind(1))?;
    output(layers.alloc, vector.is_valid()?)
}

/// Returns the secret key whose identifier and seed have the byte 1 throughout.
fn secret(alloc: Global, width: &str, height: &str) -> Result<Secret> {
    let width = match width {
        "4" => Width::W4,
        "8" => Width::W8,
        _ => bail!("no such width"),
    };
    let height = match height {
        "5" => Height::H5,
        "10" => Height::H10,
        "15" => Height::H15,
        _ => bail!("no such height"),
    };
    Ok(Secret::of(alloc, [1; 16], [1; 32], width, height)?)
}

/// Signs a message six times, leaves the first signature and the sixth in files, and returns the
/// line of the first.
pub fn sign(layers: &Layers<'_>, step: &Step) -> Result<String> {
    let (first, sixth) = first_and_sixth(layers.alloc, step)?;
    leave(layers, step.word(3)?, &first)?;
    leave(layers, step.word(4)?, &sixth)?;
    tell(layers.alloc, &first)
}

fn first_and_sixth(alloc: Global, step: &Step) -> Result<(Vector, Vector)> {
    let mut secret = secret(alloc, step.word(0)?, step.word(1)?)?;
    let message = step.word(2)?.as_bytes();
    let first = signed(alloc, &mut secret, message)?;
    let sixth = fifth_from_here(alloc, &mut secret, message)?;
    Ok((first, sixth))
}

fn leave(layers: &Layers<'_>, name: &str, vector: &Vector) -> Result<()> {
    let text = vector.text(layers.alloc)?;
    layers.write(name, text.as_str())
}

/// Returns the fifth next signature of the message.
fn fifth_from_here(alloc: Global, secret: &mut Secret, message: &[u8]) -> Result<Vector> {
    for _ in 0..4 {
        secret.sign(message)?;
    }
    signed(alloc, secret, message)
}

/// Returns the next signature of the message.
fn signed(alloc: Global, secret: &mut Secret, message: &[u8]) -> Result<Vector> {
    Ok(Vector {
        public: Vec::from_slice(alloc, secret.public().bytes())?,
        message: Vec::from_slice(alloc, message)?,
        signature: secret.sign(message)?,
    })
}

/// Returns the line of the signature in a file.
pub fn about(layers: &Layers<'_>, step: &Step) -> Result<String> {
    let vector = vector_in(layers, step.word(0)?)?;
    tell(layers.alloc, &vector)
}

/// Returns the root of the key, and the length and the SHA-256 of the signature.
fn tell(alloc: Global, vector: &Vector) -> Result<String> {
    let root = hex::encode(alloc, vector.public.get(24..).context("no root")?)?;
    let digest: [u8; 32] = Sha256::digest(vector.signature.as_slice());
    let digest = hex::encode(alloc, digest)?;
    let length = vector.signature.len();
    Ok(format!(in alloc; "root {root}\n{length} bytes of {MOST_SIGNATURE}\nSHA-256 {digest}\n")?)
}

/// Signs a message with a given number of leaves of a key of W8 and height 5, and twice more.
pub fn leaves(alloc: Global, step: &Step) -> Result<String> {
    let count = step.word(0)?.parse::<u32>()?;
    let message = step.word(1)?.as_bytes();
    let mut secret = secret(alloc, "8", "5")?;
    let public = secret.public();
    let mut text = String::new(alloc);
    for _ in 0..count.saturating_add(2) {
        push_leaf(alloc, &mut text, &mut secret, message)?;
    }
    writeln!(text, "same key: {}", yes_or_no(secret.public() == public))?;
    Ok(text)
}

/// Adds the leaf and the length of the next signature, and whether it is valid, or why there is
/// none.
fn push_leaf(alloc: Global, text: &mut String, secret: &mut Secret, message: &[u8]) -> Result<()> {
    match secret.sign(message) {
        Ok(signature) => push_valid(alloc, text, &secret.public(), message, &signature),
        Err(fault) => Ok(writeln!(text, "{fault:?}")?),
    }
}

fn push_valid(
    alloc: Global,
    text: &mut String,
    public: &Public,
    message: &[u8],
    signature: &[u8],
) -> Result<()> {
    let leaf = hex::encode(alloc, signature.get(..4).unwrap_or(&[]))?;
    let valid = yes_or_no(verify(public, message, signature));
    let length = signature.len();
    Ok(writeln!(text, "leaf {leaf}, {length} bytes, valid: {valid}")?)
}
