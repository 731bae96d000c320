//! Lists whose items all have one form.

ghost use Rattle.std.specs.Prelude.{◌≡◌};
ghost use Rattle.cjson.specs.Tree.{items_view};
ghost use Rattle.cjson.specs.Form as form_of;

use crate::fault::ReadFault;
use crate::form::FromJson;
use crate::tree::Tree;
use std::alloc::Global;
use std::marker::Model;

/// The items of a list, in order. Read from a JSON list, which is `Malformed` if some item is.
pub struct Items<T> {
    items: Vec<T>,
}

impl<T: Drop> Drop for Items<T> {
    fn drop(self) {
        let Items { items } = self;
    }
}

impl<T> Model for Items<T> {
    ghost use Rattle.std.specs.Prelude.{List};

    ghost Value = { List T };

    ghost view = { λ a. a.items.items };
}

impl<T> Items<T> {
    /// Returns a list of the items of a vector.
    pub fn new(items: Vec<T>) -> Items<T>
        ensures value { result ≡ items.items }
    {
        Items { items }
    }

    /// Returns the items as a vector.
    pub fn into_vec(self) -> Vec<T>
        ensures value { result.items ≡ self }
    {
        let Items { items } = self;
        items
    }

    /// Returns the items as a slice.
    pub fn as_slice(&self) -> &[T]
        ensures value { result.now ≡ self.now }
    {
        self.items.as_slice()
    }
}

impl<T: FromJson + Drop> FromJson for Items<T> {
    ghost form = { form_of.list T.form };

    fn from_json(alloc: Global, value: &Tree) -> Result<Items<T>, ReadFault> {
        let found = value.as_array().ok_or(ReadFault::Malformed)?;
        read_each(alloc, found)
    }
}

fn read_each<T: FromJson + Drop>(alloc: Global, found: &[Tree]) -> Result<Items<T>, ReadFault>
    ensures { form_of.Reads (form_of.each T.form (items_view found.now)) result }
{
    let mut items = Vec::with_capacity(alloc, found.len())?;
    for item in found {
        items.push(T::from_json(alloc, item)?)?;
    }
    Ok(Items::new(items))
}
