//! The printed form of names.

ghost use Rattle.std.specs.Prelude.{◌≡◌, [], ◌∷◌, ◌++◌, IfOk, OnOk, string_bytes, take};
ghost use Rattle.hex.specs.Hex.{encode_lower};
ghost use Rattle.inout.specs.Quoted.{cut_text, quoted_byte, quoted_text};

use std::alloc::{AllocError, Global};

/// Maximum number of bytes of a name that are printed where it may be long.
const MOST_BYTES: usize = 256;

/// Returns the name in double quotes: each byte outside 0x20 to 0x7e, each `"` and each `\` is
/// written as `\x` and two lower-case hexadecimal digits. Fails only if out of memory.
pub fn quote_name(alloc: Global, name: &str) -> Result<String, AllocError>
    ensures text { IfOk result (λ text. string_bytes text ≡ quoted_text name.now) }
{
    quote_bytes(alloc, name.as_bytes())
}

/// Returns the name as [`quote_name`] does, up to its first 256 bytes: if it has more, `..` follows
/// the closing quote. Fails only if out of memory.
pub fn quote_cut(alloc: Global, name: &str) -> Result<String, AllocError>
    ensures text { IfOk result (λ text. string_bytes text ≡ cut_text name.now) }
{
    let bytes = name.as_bytes();
    if bytes.len() <= MOST_BYTES {
        return quote_bytes(alloc, bytes);
    }
    let mut text = quote_bytes(alloc, start_of(bytes, MOST_BYTES))?;
    text.push_str("..")?;
    Ok(text)
}

/// Returns the first `most` bytes, or all if there are fewer.
#[tactic(auto, using(std::proofs::lemmas::List::take_all))]
fn start_of(bytes: &[u8], most: usize) -> &[u8]
    ensures { result.now ≡ take most bytes.now }
{
    if bytes.len() <= most {
        return bytes;
    }
    &bytes[..most]
}

fn quote_bytes(alloc: Global, bytes: &[u8]) -> Result<String, AllocError>
    ensures { IfOk result (λ text. string_bytes text ≡ quoted_text bytes.now) }
{
    let mut text = String::from_str(alloc, "\"")?;
    for &byte in bytes {
        push_byte(alloc, &mut text, byte)?;
    }
    text.push('"')?;
    Ok(text)
}

fn push_byte(alloc: Global, text: &mut String, byte: u8) -> Result<(), AllocError>
    ensures { OnOk result (string_bytes text.new ≡ string_bytes text.old ++ quoted_byte byte) }
{
    match byte {
        b'"' | b'\\' | 0..=0x1f | 0x7f..=0xff => push_escape(alloc, text, byte),
        _ => text.push(char::from(byte)),
    }
}

fn push_escape(alloc: Global, text: &mut String, byte: u8) -> Result<(), AllocError>
    ensures { OnOk result (string_bytes text.new
        ≡ string_bytes text.old ++ 92 ∷ 120 ∷ encode_lower (byte ∷ [])) }
{
    let digits = hex::encode(alloc, [byte])?;
    text.push_str("\\x")?;
    text.push_str(digits.as_str())
}
