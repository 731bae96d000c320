//! The printed form of truths.

use anyhow::Result;
use std::alloc::Global;

/// Returns the word for a truth.
pub fn yes_or_no(is_so: bool) -> &'static str {
    if is_so { "yes" } else { "no" }
}

/// Returns the line of a truth.
pub fn output(alloc: Global, is_so: bool) -> Result<String> {
    let word = yes_or_no(is_so);
    Ok(format!(in alloc; "{word}\n")?)
}
