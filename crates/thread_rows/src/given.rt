//! Checks whose truths are given.

ghost use Rattle.std.specs.Prelude.{◌≤◌, vec_len};

use anyhow::{Result, bail, ensure};
use board::{Checks, MOST_CHECKS};
use cjson::NoMemory;
use std::alloc::Global;

/// Checks with these truths. Deciding some of them always fails as out of memory.
#[derive(Drop)]
pub struct Given {
    /// The truths.
    pub truths: Vec<bool>,
    refused: Vec<usize>,
    ghost most: { vec_len truths ≤ 4096 },
}

impl Checks for Given {
    ghost truths = { λ c. c.truths.items };

    fn count(&self) -> usize {
        self.truths.len()
    }

    fn decide(&self, j: usize) -> Result<bool, NoMemory> {
        if self.refused.contains(&j) {
            return Err(NoMemory);
        }
        Ok(self.truths[j])
    }
}

impl Given {
    /// Returns the checks of the words, each of which is `valid`, `invalid` or `refused`.
    pub fn of_words(alloc: Global, words: &[String]) -> Result<Given> {
        let mut truths = Vec::new(alloc);
        let mut refused = Vec::new(alloc);
        for (place, word) in words.iter().enumerate() {
            let (truth, is_refused) = match word.as_str() {
                "valid" => (true, false),
                "invalid" => (false, false),
                "refused" => (true, true),
                _ => bail!("no such check"),
            };
            truths.push(truth)?;
            if is_refused {
                refused.push(place)?;
            }
        }
        ensure!(truths.len() <= MOST_CHECKS, "too many checks");
        Ok(Given { truths, refused })
    }
}
