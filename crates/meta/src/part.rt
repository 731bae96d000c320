//! A file together with what is read from it.

ghost use Rattle.std.specs.Prelude.{◌≡◌, ◌≤◌, ℕ, length, Option, Ok, IfOk};
ghost use Rattle.serde_json.specs.Data.{Data};
ghost use Rattle.cjson.specs.Document.{doc_of};
ghost use Rattle.cjson.specs.Form.{Reads};
ghost use Rattle.meta.specs.Content as spec;

use crate::content::refuse_if;
use crate::fault::{Fault, Stop};
use cjson::{Doc, DocFault, NoMemory, ReadFault, signed_bytes};
use std::alloc::Global;
use std::marker::Model;
use std::sync::Arc;

/// The reading of a file of some kind.
pub trait Reading: Sized {
    /// What the signed tree of a document is read as.
    ghost form: { Data → Option Self };

    /// Maximum number of bytes of a file.
    ghost limit: { ℕ };

    /// Reads a document as a file of this kind. Fails with `Malformed`, or with `NoMemory`.
    fn read(alloc: Global, doc: &Doc) -> Result<Self, ReadFault>
        ensures read { Reads (form (doc_of doc.now).signed) result };

    /// Returns the maximum number of bytes of a file of this kind.
    fn limit() -> u64
        ensures value { result ≡ limit };
}

/// A metadata file: its bytes, which are within its kind's limit, and what is read from them.
/// Copies share both.
pub struct Part<A: Reading> {
    file: Arc<File<A>>,
}

impl<A: Reading + Drop> Drop for Part<A> {
    fn drop(self) {
        let Part { file } = self;
    }
}

/// The bytes of a file, and what is read from them.
struct File<A> {
    bytes: Vec<u8>,
    reading: A,
}

impl<A: Drop> Drop for File<A> {
    fn drop(self) {
        let File { bytes, reading } = self;
    }
}

impl<A: Reading> Model for Part<A> {
    ghost use Rattle.std.specs.Prelude.{◌≡◌, ◌≤◌, length, Ok};
    ghost use Rattle.meta.specs.Content as spec;

    ghost Value = { spec.Part A };

    ghost view = { λ p. record {
      bytes = p.file.value.bytes.items;
      reading = p.file.value.reading;
    } };

    ghost invariant = { λ p.
        (spec.reading_of A.form p.file.value.bytes.items ≡ Ok p.file.value.reading)
        × (length p.file.value.bytes.items ≤ A.limit) };
}

impl<A: Reading + Drop> Part<A> {
    /// Returns the file of bytes that were read, within the limit of its kind. Fails only if out of
    /// memory.
    pub fn new(alloc: Global, bytes: Vec<u8>, reading: A) -> Result<Part<A>, NoMemory>
        requires read { spec.reading_of A.form bytes.items ≡ Ok reading }
        requires limit { length bytes.items ≤ A.limit }
        ensures value { IfOk result (λ p. p
            ≡ record { bytes = bytes.items; reading = reading }) }
    {
        let file = Arc::new(alloc, File { bytes, reading })?;
        Ok(Part { file })
    }

    /// Reads the file of these bytes. Fails with `TooLong` over the limit of its kind, with
    /// `Malformed`, or if out of memory.
    pub fn read(alloc: Global, bytes: Vec<u8>) -> Result<Part<A>, Stop>
        ensures answer { spec.Answers (spec.part_of A.form A.limit bytes.items) result (λ p. p) }
    {
        refuse_if(bytes.len() as u64 > A::limit(), Fault::TooLong)?;
        let doc = read_document(alloc, &bytes)?;
        let reading = A::read(alloc, &doc)?;
        Ok(Part::new(alloc, bytes, reading)?)
    }

    /// Returns an equal file, which shares the contents of this one. Fails only with `NoMemory`.
    pub fn copy(&self) -> Result<Part<A>, NoMemory>
        ensures equal { IfOk result (λ p. p ≡ self.now) }
    {
        let file = self.file.clone()?;
        Ok(Part { file })
    }

    /// Returns the file's bytes, within the limit of its kind.
    pub fn bytes(&self) -> &[u8]
        ensures value { result.now ≡ self.now.bytes }
        ensures limit { length result.now ≤ A.limit }
    {
        &self.file.bytes
    }

    /// Returns what is read from the bytes.
    pub fn reading(&self) -> &A
        ensures value { result.now ≡ self.now.reading }
        ensures read { spec.reading_of A.form self.now.bytes ≡ Ok result.now }
    {
        &self.file.reading
    }
}

/// Reads the document of a file's bytes. Fails with `Malformed` if they are none, or if out of
/// memory.
pub fn read_document(alloc: Global, bytes: &[u8]) -> Result<Doc, Stop>
    ensures document { spec.Answers (spec.document_of bytes.now) result doc_of }
{
    match signed_bytes(alloc, bytes) {
        Ok(doc) => Ok(doc),
        Err(DocFault::NoMemory) => Err(Stop::NoMemory),
        Err(_) => Err(Stop::Refused(Fault::Malformed)),
    }
}
