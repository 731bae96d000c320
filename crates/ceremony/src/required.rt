//! The keys that must sign a file, from the file that lists them.

ghost use Rattle.std.specs.Prelude.{◌≡◌, None, IfOk, IfSome, option_map};
ghost use Rattle.cjson.specs.Document.{doc_of};
ghost use Rattle.cjson.specs.Tree.{view};
ghost use Rattle.ceremony.specs.Required as spec;

use cjson::{Doc, NoMemory, ReadFault, Tree};
use keys::RoleKeys;
use meta::{Delegation, Roles, Root, Targets, read_root, read_targets};
use rolechain::Step;
use signing::{Required, Signing, signing_of};
use std::alloc::Global;

/// The role of a metadata file.
#[derive(Clone, Copy)]
pub enum Role<'a> {
    /// A top-level role, whose keys a root file lists.
    Top(Step),
    /// A delegated role of that name, whose keys a targets file lists.
    Delegated(&'a str),
}

/// Returns who signed the document in the role, of the keys that `by` lists, or None if that isn't
/// such a file or has no such role. Fails only if out of memory.
pub(crate) fn signing_by(
    alloc: Global,
    doc: &Doc,
    by: &Doc,
    role: &Role<'_>,
) -> Result<Option<Signing>, NoMemory>
    ensures some { IfOk result (λ o. IfSome o (spec.IsSigningOf (doc_of doc.now)
        (spec.required role.now (doc_of by.now).signed))) }
    ensures none { IfOk result
        (λ o. o ≡ None → spec.required role.now (doc_of by.now).signed ≡ None) }
{
    match role {
        Role::Top(step) => signing_by_root(alloc, doc, by, *step),
        Role::Delegated(name) => signing_by_targets(alloc, doc, by, name),
    }
}

fn signing_by_root(
    alloc: Global,
    doc: &Doc,
    by: &Doc,
    step: Step,
) -> Result<Option<Signing>, NoMemory>
    ensures some { IfOk result (λ o. IfSome o (spec.IsSigningOf (doc_of doc.now)
        (spec.by_root step (doc_of by.now).signed))) }
    ensures none { IfOk result (λ o. o ≡ None → spec.by_root step (doc_of by.now).signed ≡ None) }
{
    let root = match read_root(alloc, by) {
        Ok(root) => root,
        Err(ReadFault::Malformed) => return Ok(None),
        Err(ReadFault::NoMemory) => return Err(NoMemory),
    };
    match root_required(by.tree(), &root, step) {
        Some(required) => Ok(Some(signing_of(alloc, doc, &required)?)),
        None => Ok(None),
    }
}

fn root_required<'a>(tree: &'a Tree, root: &'a Root, step: Step) -> Option<Required<'a>>
    ensures { option_map spec.seen result
        ≡ spec.root_required step (view tree.now) root.now }
{
    Some(Required {
        keys: tree.get("keys")?,
        ring: root.ring(),
        role: top_keys(root, step),
    })
}

/// Returns the keys of a top-level role.
fn top_keys(root: &Root, step: Step) -> &RoleKeys
    ensures { result.now ≡ spec.top_keys step root.now }
{
    match step {
        Step::Root => root.root(),
        Step::Timestamp => root.timestamp(),
        Step::Snapshot => root.snapshot(),
        Step::Targets => root.targets(),
    }
}

fn signing_by_targets(
    alloc: Global,
    doc: &Doc,
    by: &Doc,
    name: &str,
) -> Result<Option<Signing>, NoMemory>
    ensures some { IfOk result (λ o. IfSome o (spec.IsSigningOf (doc_of doc.now)
        (spec.by_targets name.now (doc_of by.now).signed))) }
    ensures none { IfOk result
        (λ o. o ≡ None → spec.by_targets name.now (doc_of by.now).signed ≡ None) }
{
    let targets = match read_targets(alloc, by) {
        Ok(targets) => targets,
        Err(ReadFault::Malformed) => return Ok(None),
        Err(ReadFault::NoMemory) => return Err(NoMemory),
    };
    match targets_required(by.tree(), &targets, name) {
        Some(required) => Ok(Some(signing_of(alloc, doc, &required)?)),
        None => Ok(None),
    }
}

fn targets_required<'a>(tree: &'a Tree, targets: &'a Targets, name: &str) -> Option<Required<'a>>
    ensures { option_map spec.seen result
        ≡ spec.targets_required name.now (view tree.now) targets.now }
{
    let delegations = targets.delegations()?;
    let role = delegated_keys(&delegations.roles, name)?;
    let keys = delegation_keys(tree)?;
    let ring = &delegations.ring;
    Some(Required { keys, ring, role })
}

/// Returns the object of keys of the delegations.
fn delegation_keys(tree: &Tree) -> Option<&Tree>
    ensures { option_map (λ t. view t.now) result ≡ spec.delegation_keys (view tree.now) }
{
    tree.get("delegations")?.get("keys")
}

/// Returns the keys of the role of that name: of the first delegation to it, or of the hash bins,
/// whose names all begin with the prefix.
fn delegated_keys<'a>(roles: &'a Roles, name: &str) -> Option<&'a RoleKeys>
    ensures { option_map (λ k. k.now) result ≡ spec.delegated_keys name.now roles.now }
{
    match roles {
        Roles::Listed(listed) => listed_keys(listed.as_slice(), name),
        Roles::Binned(bins) if begins_with(name, bins.prefix.as_str()) => Some(&bins.keys),
        Roles::Binned(_) => None,
    }
}

fn listed_keys<'a>(listed: &'a [Delegation], name: &str) -> Option<&'a RoleKeys>
    ensures { option_map (λ k. k.now) result ≡ spec.listed_keys name.now listed.now }
{
    let delegation = listed.iter().find(|d| d.name.as_str() == name)?;
    Some(&delegation.keys)
}

fn begins_with(name: &str, prefix: &str) -> bool
    ensures { result ≡ spec.begins_with prefix.now name.now }
{
    name.as_bytes().starts_with(prefix.as_bytes())
}
