//! Metadata files as documents: what is signed, and by which entries.

ghost use Rattle.std.specs.Prelude.{◌≡◌, Some};
ghost use Rattle.cjson.specs.Tree.{view};
ghost use Rattle.cjson.specs.Canon.{canon};

mod read;

use crate::fault::ReadFault;
use crate::form::{FromJson, needed_member};
use crate::list::Items;
use crate::text::Text;
use crate::tree::Tree;
pub use read::signed_bytes;
use std::alloc::Global;

/// An entry of `signatures`: the id of a key and a signature, as the file writes them (TUF 1.0
/// section 4.2). Both are texts of any length, and are compared with nothing here.
pub struct Entry {
    /// The id of the key that should have signed.
    pub keyid: Text,
    /// The signature, which should be hexadecimal text.
    pub sig: Text,
}

impl Drop for Entry {
    fn drop(self) {
        let Entry { keyid, sig } = self;
    }
}

impl FromJson for Entry {
    ghost use Rattle.cjson.specs.Form as spec;

    ghost form = { spec.entry };

    fn from_json(alloc: Global, value: &Tree) -> Result<Entry, ReadFault> {
        let keyid = needed_member(alloc, value, "keyid")?;
        let sig = needed_member(alloc, value, "sig")?;
        Ok(Entry { keyid, sig })
    }
}

/// A metadata file as a document: what is signed, its canonical text, and the entries of its
/// signatures (TUF 1.0 section 4.2). The text is always that of the tree.
pub struct Doc {
    tree: Tree,
    canonical: Vec<u8>,
    listed: Items<Entry>,
    ghost covered: { canon (view tree) ≡ Some canonical.items },
}

impl Drop for Doc {
    fn drop(self) {
        let Doc {
            tree,
            canonical,
            listed,
        } = self;
    }
}

impl Doc {
    ghost use Rattle.cjson.specs.Document.{doc_of};

    /// Returns the tree of `signed`.
    pub fn tree(&self) -> &Tree
        ensures value { view result.now ≡ (doc_of self.now).signed }
    {
        &self.tree
    }

    /// Returns the canonical text of `signed`, which signatures cover, however the file writes it.
    pub fn bytes(&self) -> &[u8]
        ensures value { result.now ≡ (doc_of self.now).text }
        ensures canonical { canon (doc_of self.now).signed ≡ Some result.now }
    {
        &self.canonical
    }

    /// Returns the entries of `signatures`, in the file's order.
    pub fn entries(&self) -> &[Entry]
        ensures value { result.now ≡ (doc_of self.now).entries }
    {
        self.listed.as_slice()
    }
}
