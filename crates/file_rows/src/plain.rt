//! The reading and printing of values.

use anyhow::Result;
use cjson::{Tree, read_tree};
use serde_json::Value;
use std::alloc::Global;

/// A tree of JSON, as a row writes it.
pub struct Json {
    /// The tree.
    pub tree: Tree,
}

impl Drop for Json {
    fn drop(self) {
        let Json { tree } = self;
    }
}

impl Json {
    /// Reads the tree of a text.
    pub fn read(alloc: Global, text: &str) -> Result<Json> {
        let tree = read_tree(alloc, text.as_bytes())?;
        Ok(Json { tree })
    }
}

/// Reads the value of a text.
pub fn value_of(alloc: Global, text: &str) -> Result<Value> {
    Ok(Value::from_slice(alloc, text.as_bytes())?)
}

/// Returns the word for a truth.
pub fn yes_or_no(is_so: bool) -> &'static str {
    if is_so { "yes" } else { "no" }
}

/// Returns the line of a truth.
pub fn output(alloc: Global, is_so: bool) -> Result<String> {
    let word = yes_or_no(is_so);
    Ok(format!(in alloc; "{word}\n")?)
}

/// Adds the bytes: `\` twice, a byte outside 0x20 to 0x7e as `\x` and two digits, and any other
/// unchanged.
pub fn push_plain(text: &mut String, bytes: &[u8]) -> Result<()> {
    for byte in bytes {
        match *byte {
            b'\\' => text.push_str("\\\\")?,
            byte if (b' '..=b'~').contains(&byte) => text.push(char::from(byte))?,
            byte => write!(text, "\\x{byte:02x}")?,
        }
    }
    Ok(())
}
