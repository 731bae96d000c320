//! Metadata files that may not be signed yet.

ghost use Rattle.std.specs.Prelude.{◌≡◌, ◌≢◌, ◌≤◌, ◌<◌, Some, None, Ok, Err, IfOk, IfErr};
ghost use Rattle.std.specs.Prelude.{◌↔◌, IfSome, IsSome, IsTrue, option_map};
ghost use Rattle.serde_json.specs.Data.{depth};
ghost use Rattle.serde_json.specs.Find.{as_object};
ghost use Rattle.serde_json.specs.Errors.{IsMemory};
ghost use Rattle.serde_json.specs.Read.{max_depth};
ghost use Rattle.serde_json.specs.View.{view};
ghost use Rattle.cjson.specs.Canon.{canon};
ghost use Rattle.cjson.specs.Document.{signed_of, tree_of};
ghost use Rattle.cjson.specs.Form.{ReadsAs};
ghost use Rattle.signing.specs.Drafts as spec;

use cjson::form::optional_member;
use cjson::list::Items;
use cjson::{DocFault, Entry, ReadFault, canonical, tree_from};
use serde_json::{Category, Value};
use std::alloc::Global;

/// What a metadata file signs, its canonical text, and the entries so far.
#[derive(Drop)]
pub(crate) struct Draft<'a> {
    pub signed: &'a Value,
    pub text: Vec<u8>,
    pub entries: Items<Entry>,
}

/// Returns the canonical text of `signed` of a metadata file, which its signatures cover (TUF 1.0
/// section 4.2). The file need have no `signatures`. Fails with the first of [`DocFault`], or if
/// out of memory.
pub fn signed_text(alloc: Global, file: &[u8]) -> Result<Vec<u8>, DocFault>
    ensures text { IfOk result (λ text. spec.signed_text file.now ≡ Ok text.items) }
    ensures refused { IfErr result (λ e. e ≢ DocFault.NoMemory
        → spec.signed_text file.now ≡ Err e) }
{
    let value = read_metadata(alloc, file)?;
    let draft = read_draft(alloc, &value)?;
    let Draft { text, .. } = draft;
    Ok(text)
}

/// Reads a file of JSON as a metadata file.
pub(crate) fn read_metadata(alloc: Global, file: &[u8]) -> Result<Value, DocFault>
    ensures ok { IfOk result (λ v. tree_of file.now ≡ Some (view v)) }
    ensures depth { IfOk result (λ v. depth (view v) ≤ max_depth) }
    ensures err { IfErr result (λ e. e ≢ DocFault.NoMemory
        → (e ≡ DocFault.NotJson) × (tree_of file.now ≡ None)) }
{
    match read_value(alloc, file) {
        Ok(value) => Ok(value),
        Err(ReadFault::Malformed) => Err(DocFault::NotJson),
        Err(ReadFault::NoMemory) => Err(DocFault::NoMemory),
    }
}

/// Returns the draft that the value of a file is.
pub(crate) fn read_draft<'a>(alloc: Global, file: &'a Value) -> Result<Draft<'a>, DocFault>
    ensures ok { IfOk result (λ d. spec.draft_in (view file.now) ≡ Ok (spec.document_of d)) }
    ensures object { IfOk result (λ d. IsSome (as_object (view d.signed.now))) }
    ensures text { IfOk result (λ d. canon (view d.signed.now) ≡ Some d.text.items) }
    ensures depth { IfOk result (λ d. depth (view d.signed.now) < depth (view file.now)) }
    ensures err { IfErr result (λ e. e ≢ DocFault.NoMemory
        → spec.draft_in (view file.now) ≡ Err e) }
{
    let Some(signed) = signed_in(file) else {
        return Err(DocFault::NotObject);
    };
    let text = canonical(alloc, signed)?;
    let entries = entries_in(alloc, file)?;
    Ok(Draft {
        signed,
        text,
        entries,
    })
}

/// Returns the member `signed`, if it is an object.
fn signed_in(file: &Value) -> Option<&Value>
    ensures value { option_map (λ v. view v.now) result ≡ signed_of (view file.now) }
    ensures object { IfSome result (λ v. IsSome (as_object (view v.now))) }
    ensures depth { IfSome result (λ v. depth (view v.now) < depth (view file.now)) }
{
    match file.get("signed") {
        Some(signed) if signed.is_object() => Some(signed),
        _ => None,
    }
}

/// Returns the entries of `signatures`, or none if it is absent.
fn entries_in(alloc: Global, file: &Value) -> Result<Items<Entry>, DocFault>
    ensures ok { IfOk result (λ entries. spec.entries_in (view file.now) ≡ Some entries) }
    ensures err { IfErr result (λ e. e ≢ DocFault.NoMemory
        → (e ≡ DocFault.BadSignatures) × (spec.entries_in (view file.now) ≡ None)) }
{
    let Ok(tree) = tree_from(alloc, file) else {
        return Err(DocFault::NoMemory);
    };
    match optional_member(alloc, &tree, "signatures") {
        Ok(Some(entries)) => Ok(entries),
        Ok(None) => Ok(Items::new(Vec::new(alloc))),
        Err(ReadFault::Malformed) => Err(DocFault::BadSignatures),
        Err(ReadFault::NoMemory) => Err(DocFault::NoMemory),
    }
}

/// Reads a file of JSON.
pub(crate) fn read_value(alloc: Global, file: &[u8]) -> Result<Value, ReadFault>
    ensures read { ReadsAs (tree_of file.now) result view }
    ensures depth { IfOk result (λ v. depth (view v) ≤ max_depth) }
{
    match Value::from_slice(alloc, file) {
        Ok(value) => Ok(value),
        Err(error) if is_memory(&error) => Err(ReadFault::NoMemory),
        Err(_) => Err(ReadFault::Malformed),
    }
}

fn is_memory(error: &serde_json::Error) -> bool
    ensures { IsTrue result ↔ IsMemory error.now }
{
    error.classify() == Category::Memory
}
