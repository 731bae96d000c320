//! The commands of the rows of the cycle.

use crate::{names, searches, states, verdicts};
use anyhow::Result;
use sessions::Step;
use std::alloc::Global;
use std::fs;

/// The commands of the cycle, and the files that rows leave for later ones.
#[derive(Clone, Copy, Drop)]
pub struct Layers<'a> {
    rt: &'a HostRuntime,
    /// The allocator.
    pub(crate) alloc: Global,
}

impl<'a> Layers<'a> {
    /// Returns the commands over a place of files.
    pub fn new(rt: &'a HostRuntime, alloc: Global) -> Layers<'a> {
        Layers { rt, alloc }
    }

    /// Returns the bytes of a file.
    pub(crate) fn bytes(&self, name: &str) -> Result<Vec<u8>> {
        Ok(fs::read(self.rt, name)?)
    }

    /// Returns what a step prints of states, searches and lines, or None if it has another command.
    /// An error is why the step can't be run.
    pub fn printed(&self, step: &Step) -> Result<Option<String>> {
        let printed = match step.name()? {
            "trust" => states::trust(self, step),
            "state" => states::state(self, step),
            "state-text" => states::state_text(self.alloc, step),
            "search" => searches::output(self.alloc, step),
            "verdict" => verdicts::verdict(self.alloc, step),
            "end" => verdicts::end(self.alloc, step),
            _ => return of_names(self.alloc, step),
        };
        Ok(Some(printed?))
    }
}

/// Returns what a step prints of patterns, and of names of bins and files.
fn of_names(alloc: Global, step: &Step) -> Result<Option<String>> {
    let printed = match step.name()? {
        "matches" => names::pattern(alloc, step),
        "prefix" => names::prefix(alloc, step),
        "bin" => names::bin(alloc, step),
        "stars" => names::stars(alloc, step),
        "root-name" => names::root(alloc, step),
        "role-name" => names::role(alloc, step),
        "versioned" => names::versioned_name(alloc, step),
        "hashed" => names::hashed_name(alloc, step),
        "joined" => names::below(alloc, step),
        _ => return Ok(None),
    };
    Ok(Some(printed?))
}
