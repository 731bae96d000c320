//! Values of a Rust type of the test's own that are read from JSON.

ghost use Rattle.std.specs.Prelude.{List, ℕ, option_map};
ghost use Rattle.cjson.specs.Form as form_of;

use cjson::form::FromJson;
use cjson::list::Items;
use cjson::members::{FromMember, read_members};
use cjson::number::Length;
use cjson::text::Text;
use cjson::{ReadFault, Tree, read_tree};
use std::alloc::Global;
use std::marker::Model;
use std::process::Abort;

/// A name with its length, as a reading of an object's member.
#[derive(Drop)]
struct Named {
    name: Text,
    length: Length,
}

impl Model for Named {
    ghost Value = { List ℕ × ℕ };

    ghost view = { λ n. (n.name, n.length) };
}

impl FromMember for Named {
    ghost member_form = { λ name d.
        option_map (λ n. (name, n)) (form_of.whole 0 form_of.greatest d) };

    fn from_member(alloc: Global, name: &str, value: &Tree) -> Result<Named, ReadFault> {
        let length = Length::from_json(alloc, value)?;
        let name = Text::new(String::from_str(alloc, name)?);
        Ok(Named { name, length })
    }
}

/// Reads the members of an object.
fn members<R: Abort + AllocGlobal>(rt: &R, json: &str) -> Result<Items<Named>, ReadFault> {
    let value = read_tree(rt.alloc(), json.as_bytes()).expect(rt, "a tree");
    read_members(rt.alloc(), &value)
}

fn is(named: &Named, name: &str, length: u64) -> bool {
    named.name.as_str() == name && named.length.get() == length
}

#[test]
fn objects(rt: HostRuntime) {
    let named = members(&rt, "{\"b\":2,\"a\":1,\"b\":3}").expect(&rt, "an object");
    let named = named.as_slice();
    assert_eq!(rt; named.len(), 2);
    assert!(rt; is(&named[0], "a", 1));
    assert!(rt; is(&named[1], "b", 3));
}

#[test]
fn no_objects(rt: HostRuntime) {
    for json in ["{\"a\":1,\"b\":-1}", "[1]", "1"] {
        let fault = members(&rt, json).err();
        assert_eq!(rt; fault, Some(ReadFault::Malformed), "{json}");
    }
}
