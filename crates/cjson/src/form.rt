//! Readers of one JSON value, and of an object's members.

ghost use Rattle.std.specs.Prelude.{◌≡◌, Option, Err, IfOk, IfErr};
ghost use Rattle.serde_json.specs.Data.{Data};
ghost use Rattle.cjson.specs.Tree.{view};
ghost use Rattle.cjson.specs.Form as form_of;

use crate::fault::{NoMemory, ReadFault};
use crate::tree::Tree;
use std::alloc::Global;

/// A type that is read from a JSON value of one form.
pub trait FromJson: Sized {
    ghost form: { Data → Option Self };

    /// Reads `value`. Fails with `Malformed` if it hasn't the form, or with `NoMemory`.
    fn from_json(alloc: Global, value: &Tree) -> Result<Self, ReadFault>
        ensures read { form_of.Reads (form (view value.now)) result };
}

/// Reads a required member.
///
/// Fails with `Malformed` if `value` isn't an object, has no member of that name, or has a
/// malformed one, or with `NoMemory`.
pub fn needed_member<T: FromJson>(alloc: Global, value: &Tree, name: &str) -> Result<T, ReadFault>
    ensures read { form_of.Reads (form_of.needed name.now T.form (view value.now)) result }
{
    let member = value.get(name).ok_or(ReadFault::Malformed)?;
    T::from_json(alloc, member)
}

/// Reads a member that may be absent. Returns None if `value` has no member of that name or isn't
/// an object. A member that is `null` isn't absent.
///
/// Fails with `Malformed` if the member is malformed, or with `NoMemory`.
pub fn optional_member<T: FromJson>(
    alloc: Global,
    value: &Tree,
    name: &str,
) -> Result<Option<T>, ReadFault>
    ensures read { form_of.Reads (form_of.optional name.now T.form (view value.now)) result }
{
    match value.get(name) {
        Some(member) => Ok(Some(T::from_json(alloc, member)?)),
        None => Ok(None),
    }
}

/// Returns what was read, or None if the value is malformed. Fails only if the reader was out of
/// memory.
pub fn if_formed<T>(read: Result<T, ReadFault>) -> Result<Option<T>, NoMemory>
    ensures value { (o : Option T) → form_of.Reads o read → IfOk result (λ x. x ≡ o) }
    ensures memory { IfErr result (λ _. read ≡ Err ReadFault.NoMemory) }
{
    match read {
        Ok(x) => Ok(Some(x)),
        Err(ReadFault::Malformed) => Ok(None),
        Err(ReadFault::NoMemory) => Err(NoMemory),
    }
}
