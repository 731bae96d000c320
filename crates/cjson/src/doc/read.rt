//! How a document is read from the bytes of a file.

ghost use Rattle.std.specs.Prelude.{◌≡◌, ◌≢◌, false, true, Some, None, Ok, Err, option_map, IfOk};
ghost use Rattle.std.specs.Prelude.{IfErr};
ghost use Rattle.serde_json.specs.Data.{Data, object};
ghost use Rattle.cjson.specs.Tree.{view, members_view};
ghost use Rattle.cjson.specs.Canon.{has_whole_numbers, is_ordered};
ghost use Rattle.cjson.specs.Document as spec;

use crate::doc::{Doc, Entry};
use crate::fault::{DocFault, ReadFault};
use crate::form::needed_member;
use crate::list::Items;
use crate::sorted::Sorted;
use crate::tree::{Tree, read_tree};
use crate::write::canonical_text;
use std::alloc::Global;

/// The document that a file is (TUF 1.0 section 4.2), or its first fault in the order of
/// [`DocFault`].
///
/// Nesting of more than 127 levels, bytes that aren't UTF-8, a byte order mark, half of a
/// surrogate pair, a number too large for a float, and anything behind the file's object are no
/// JSON. Of members named twice the last one counts. Numbers outside `signed` may be fractions,
/// and members other than `signed` and `signatures` are passed over. A file may be of any length.
#[tactic(auto, using(crate::proofs::Ordered::ordered_tree))]
pub fn signed_bytes(alloc: Global, file: &[u8]) -> Result<Doc, DocFault>
    ensures ok { IfOk result (λ doc. spec.document file.now ≡ Ok (spec.doc_of doc)) }
    ensures err { IfErr result (λ e. e ≢ DocFault.NoMemory
        → spec.document file.now ≡ Err e) }
    ensures float { result ≡ Err DocFault.Float
        → option_map has_whole_numbers (spec.signed_in file.now) ≡ Some false }

    // The keys of a tree that is read ascend, whatever the file.
    ensures ordered { (tree : Data) → spec.tree_of file.now ≡ Some tree
        → is_ordered tree ≡ true }
{
    let tree = read_json(alloc, file)?;
    let canonical = match signed_of(&tree) {
        Some(signed) => canonical_text(alloc, signed)?,
        None => return Err(DocFault::NotObject),
    };
    let listed = read_entries(alloc, &tree)?;
    match into_signed(tree) {
        Some(tree) => Ok(Doc {
            tree,
            canonical,
            listed,
        }),
        None => Err(DocFault::NotObject),
    }
}

/// The tree of a file.
fn read_json(alloc: Global, file: &[u8]) -> Result<Tree, DocFault>
    ensures ok { IfOk result (λ tree. spec.tree_of file.now ≡ Some (view tree)) }
    ensures err { IfErr result (λ e. e ≢ DocFault.NoMemory
        → (e ≡ DocFault.NotJson) × (spec.tree_of file.now ≡ None)) }
{
    match read_tree(alloc, file) {
        Ok(tree) => Ok(tree),
        Err(ReadFault::Malformed) => Err(DocFault::NotJson),
        Err(ReadFault::NoMemory) => Err(DocFault::NoMemory),
    }
}

/// The member `signed`, where it is an object.
fn signed_of(tree: &Tree) -> Option<&Tree>
    ensures { option_map (λ v. view v.now) result ≡ spec.signed_of (view tree.now) }
{
    match tree.get("signed") {
        Some(signed) if signed.is_object() => Some(signed),
        _ => None,
    }
}

/// The same, taken out of the tree.
fn into_signed(tree: Tree) -> Option<Tree>
    ensures { option_map view result ≡ spec.signed_of (view tree) }
{
    match tree {
        Tree::Object(members) => take_signed(members),
        _ => None,
    }
}

/// The same, taken out of an object's members.
fn take_signed(members: Sorted<Tree>) -> Option<Tree>
    ensures { option_map view result ≡ spec.signed_of (object (members_view members)) }
{
    let Some(signed) = members.take("signed") else {
        return None;
    };
    if !signed.is_object() {
        return None;
    }
    Some(signed)
}

/// The entries of `signatures`.
fn read_entries(alloc: Global, tree: &Tree) -> Result<Items<Entry>, DocFault>
    ensures ok { IfOk result (λ entries. spec.entries_of (view tree.now) ≡ Some entries) }
    ensures err { IfErr result (λ e. e ≢ DocFault.NoMemory
        → (e ≡ DocFault.BadSignatures) × (spec.entries_of (view tree.now) ≡ None)) }
{
    match needed_member(alloc, tree, "signatures") {
        Ok(entries) => Ok(entries),
        Err(ReadFault::Malformed) => Err(DocFault::BadSignatures),
        Err(ReadFault::NoMemory) => Err(DocFault::NoMemory),
    }
}
