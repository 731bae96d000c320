//! Objects whose members all have one form, such as a map from ids to keys.

ghost use Rattle.std.specs.Prelude.{Option, List, ℕ};
ghost use Rattle.serde_json.specs.Data.{Data};
ghost use Rattle.cjson.specs.Tree.{view, members_view};
ghost use Rattle.cjson.specs.Form as form_of;
ghost use Rattle.cjson.specs.Form.{Reads};

use crate::fault::ReadFault;
use crate::list::Items;
use crate::tree::Tree;
use std::alloc::Global;

/// A type that is read from a member of an object.
pub trait FromMember: Sized {
    ghost member_form: { List ℕ → Data → Option Self };

    /// Reads the member `name` with this value. Fails with `Malformed` if it hasn't the form, or
    /// with `NoMemory`.
    fn from_member(alloc: Global, name: &str, value: &Tree) -> Result<Self, ReadFault>
        ensures read { Reads (member_form name.now (view value.now)) result };
}

/// Reads all members of an object, in the order of their names' bytes.
///
/// Fails with `Malformed` if `value` isn't an object or some member is malformed, or with
/// `NoMemory`.
pub fn read_members<T: FromMember + Drop>(
    alloc: Global,
    value: &Tree,
) -> Result<Items<T>, ReadFault>
    ensures read { Reads (form_of.members T.member_form (view value.now)) result }
{
    let found = value.as_object().ok_or(ReadFault::Malformed)?;
    read_each_member(alloc, found.as_slice())
}

fn read_each_member<T: FromMember + Drop>(
    alloc: Global,
    found: &[(String, Tree)],
) -> Result<Items<T>, ReadFault>
    ensures { Reads (form_of.each_member T.member_form (members_view found.now)) result }
{
    let mut items = Vec::with_capacity(alloc, found.len())?;
    for (name, member) in found {
        items.push(T::from_member(alloc, name.as_str(), member)?)?;
    }
    Ok(Items::new(items))
}
