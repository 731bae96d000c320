//! The commands of the rows of files and keys.

use crate::{
    blocks, contents, forms, key_rings, moments, questions, readings, signatures, texts, thresholds,
};
use anyhow::Result;
use sessions::Step;
use std::alloc::Global;
use std::fs;

/// The commands of one file and one key, and the files that rows leave for later ones.
#[derive(Clone, Copy, Drop)]
pub struct Layers<'a> {
    rt: &'a HostRuntime,
    /// The allocator.
    pub(crate) alloc: Global,
}

impl<'a> Layers<'a> {
    /// Returns the commands over a place of files.
    pub fn new(rt: &'a HostRuntime, alloc: Global) -> Layers<'a> {
        Layers { rt, alloc }
    }

    /// Returns the text of a file.
    pub(crate) fn text(&self, name: &str) -> Result<String> {
        Ok(fs::read_to_string(self.rt, name)?)
    }

    /// Returns whether there is a file of that name.
    pub(crate) fn has(&self, name: &str) -> Result<bool> {
        Ok(fs::exists(self.rt, name)?)
    }

    /// Writes a file.
    pub(crate) fn write(&self, name: &str, text: &str) -> Result<()> {
        Ok(fs::write(self.rt, name, text)?)
    }

    /// Returns what a step prints of files and keys, or None if it has another command. An error is
    /// why the step can't be run.
    pub fn printed(&self, step: &Step) -> Result<Option<String>> {
        let printed = match step.name()? {
            "verify" => signatures::verified(self, step),
            "about" => signatures::about(self, step),
            "sign" => signatures::sign(self, step),
            "signer" => thresholds::signer(self, step),
            "enough" => thresholds::is_enough(self, step),
            "asks" => thresholds::asks(self, step),
            "read" => readings::read(self, step),
            "listing" => contents::check_listing(self, step),
            "target" => contents::check_target(self, step),
            _ => return of_texts(self.alloc, step),
        };
        Ok(Some(printed?))
    }
}

/// Returns what a step prints of texts and JSON.
fn of_texts(alloc: Global, step: &Step) -> Result<Option<String>> {
    let printed = match step.name()? {
        "canonical" => texts::canonical_text(alloc, step),
        "document" => texts::document(alloc, step),
        "document-hex" => texts::document_hex(alloc, step),
        "nests" => texts::nests(alloc, step),
        "at-least" => forms::at_least(alloc, step),
        "digits" => forms::digits(alloc, step),
        "needed" => forms::needed_truth(alloc, step),
        "optional" => forms::optional_truth(alloc, step),
        "needed-text" => forms::needed_text(alloc, step),
        "list" => forms::list(alloc, step),
        _ => return of_values(alloc, step),
    };
    Ok(Some(printed?))
}

/// Returns what a step prints of keys, moments and digests.
fn of_values(alloc: Global, step: &Step) -> Result<Option<String>> {
    let printed = match step.name()? {
        "key-id" => key_rings::id(alloc, step),
        "ring" => key_rings::ring(alloc, step),
        "role" => key_rings::role(alloc, step),
        "public-key" => key_rings::public_key(alloc, step),
        "moment" => moments::read(alloc, step),
        "at" => moments::at(alloc, step),
        "before" => moments::before(alloc, step),
        "digest" => questions::digest(alloc, step),
        "alike" => questions::alike(alloc, step),
        "lanes" => blocks::digests(alloc, step),
        "leaves" => signatures::leaves(alloc, step),
        _ => return Ok(None),
    };
    Ok(Some(printed?))
}
