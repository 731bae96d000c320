//! Listed items, which are found by their names.

ghost use Rattle.std.specs.Prelude.{◌≡◌, IsTrue, List, ℕ, bytes_eq, find, option_map};
ghost use Rattle.meta.specs.Catalog.{Ascend};

use cjson::list::Items;
use std::marker::Model;

/// An item with a name.
pub(crate) trait HasName {
    ghost name_of: { Self → List ℕ };

    /// Returns the name.
    fn name(&self) -> &str
        ensures name { result.now ≡ name_of self.now };
}

/// Items, and whether their names are in ascending byte order.
pub(crate) struct Catalog<T: HasName> {
    items: Items<T>,
    ascends: bool,
}

impl<T: HasName + Drop> Drop for Catalog<T> {
    fn drop(self) {
        let Catalog { items, ascends } = self;
    }
}

impl<T: HasName> Model for Catalog<T> {
    ghost use Rattle.std.specs.Prelude.{IsTrue, List};
    ghost use Rattle.meta.specs.Catalog.{Ascend};

    ghost Value = { List T };

    ghost view = { λ c. c.items };

    ghost invariant = { λ c. IsTrue c.ascends → Ascend T.name_of c.items };
}

impl<T: HasName> Catalog<T> {
    /// Returns a catalog of the items.
    pub(crate) fn new(items: Items<T>) -> Catalog<T>
        ensures value { result ≡ items }
    {
        let ascends = ascend(items.as_slice());
        Catalog { items, ascends }
    }

    /// Returns the items.
    pub(crate) fn as_slice(&self) -> &[T]
        ensures value { result.now ≡ self.now }
    {
        self.items.as_slice()
    }

    /// Finds the first item of this name: by binary search, if the names ascend.
    pub(crate) fn find(&self, name: &str) -> Option<&T>
        ensures found { option_map (λ t. t.now) result
            ≡ find (λ t. bytes_eq (T.name_of t) name.now) self.now }
    {
        let items = self.items.as_slice();
        if self.ascends {
            search(items, name)
        } else {
            scan(items, name)
        }
    }
}

/// Returns whether each name is below the one that follows.
fn ascend<T: HasName>(items: &[T]) -> bool
    ensures { IsTrue result → Ascend T.name_of items.now }
{
    items.is_sorted_by(|a, b| a.name().cmp(b.name()).is_lt())
}

/// Finds the item of this name by binary search.
fn search<'a, T: HasName>(items: &'a [T], name: &str) -> Option<&'a T>
    requires { Ascend T.name_of items.now }
    ensures { option_map (λ t. t.now) result
        ≡ find (λ t. bytes_eq (T.name_of t) name.now) items.now }
{
    match items.binary_search_by(|item| item.name().cmp(name)) {
        Ok(place) => Some(&items[place]),
        Err(_) => None,
    }
}

/// Finds the first item of this name, one after another.
fn scan<'a, T: HasName>(items: &'a [T], name: &str) -> Option<&'a T>
    ensures { option_map (λ t. t.now) result
        ≡ find (λ t. bytes_eq (T.name_of t) name.now) items.now }
{
    items.iter().find(|item| item.name() == name)
}
