//! A document's entries by the ids of their keys.

ghost use Rattle.std.specs.Prelude.{◌≡◌, IfOk, map};
ghost use Rattle.cjson.specs.Document.{doc_of};
ghost use Rattle.keys.specs.Keys.{IsById, placed_of, sigs_under};

use cjson::{Doc, NoMemory};
use std::alloc::Global;
use std::collections::BTreeMap;

/// The entries of a document's signatures, by the ids of their keys.
pub struct Entries<'a> {
    by_id: BTreeMap<&'a str, Vec<Placed<'a>>>,
}

impl<'a> Drop for Entries<'a> {
    fn drop(self) {
        let Entries { by_id } = self;
    }
}

/// The text of an entry, and its place in the document.
#[derive(Clone, Copy)]
pub struct Placed<'a> {
    /// The place, from 0.
    pub place: usize,
    /// The text of `sig`.
    pub sig: &'a str,
}

impl<'a> Entries<'a> {
    /// Collects the entries of the document. Fails only if out of memory.
    pub fn of(alloc: Global, doc: &'a Doc) -> Result<Entries<'a>, NoMemory>
        ensures { IfOk result (λ e. IsById e.by_id (doc_of doc.now).entries) }
    {
        let mut by_id: BTreeMap<&'a str, Vec<Placed<'a>>> = BTreeMap::new(alloc);
        for (place, entry) in doc.entries().iter().enumerate() {
            let sig = entry.sig.as_str();
            by_id
                .entry(entry.keyid.as_str())?
                .or_default()
                .push(Placed { place, sig })?;
        }
        Ok(Entries { by_id })
    }

    /// Returns the entries under the id, in the document's order, if there are any.
    pub fn under(&self, id: &str) -> Option<&[Placed<'a>]>
        ensures { map (λ p. p.sig.now) (placed_of result) ≡ sigs_under self.now.by_id id.now }
    {
        Some(self.by_id.get(id)?.as_slice())
    }
}
