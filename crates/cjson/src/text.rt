//! Texts.

ghost use Rattle.std.specs.Prelude.{◌≡◌, bytes_eq, string_bytes};
ghost use Rattle.cjson.specs.Tree.{view};
ghost use Rattle.cjson.specs.Form as form_of;

use crate::fault::ReadFault;
use crate::form::FromJson;
use crate::tree::Tree;
use std::alloc::Global;
use std::marker::Model;

/// A text, seen as its bytes in UTF-8; read from a JSON text of any length.
pub struct Text {
    text: String,
}

impl Drop for Text {
    fn drop(self) {
        let Text { text } = self;
    }
}

impl Model for Text {
    ghost use Rattle.std.specs.Prelude.{List, ℕ, string_bytes};

    ghost Value = { List ℕ };

    ghost view = { λ t. string_bytes t.text };
}

impl Text {
    /// Returns the text of a `String`.
    pub fn new(text: String) -> Text
        ensures value { result ≡ string_bytes text }
    {
        Text { text }
    }

    /// Returns the text as a `&str`.
    pub fn as_str(&self) -> &str
        ensures value { result.now ≡ self.now }
    {
        self.text.as_str()
    }

    /// Returns the text as a `String`. Does not allocate.
    pub fn into_string(self) -> String
        ensures value { string_bytes result ≡ self }
    {
        let Text { text: given } = self;
        given
    }
}

impl FromJson for Text {
    ghost form = { form_of.text };

    fn from_json(alloc: Global, value: &Tree) -> Result<Text, ReadFault> {
        let text = value.as_str().ok_or(ReadFault::Malformed)?;
        Ok(Text::new(String::from_str(alloc, text)?))
    }
}

/// Returns whether a member is this text.
pub fn is_text(value: &Tree, name: &str, text: &str) -> bool
    ensures test { result ≡ form_of.has_text name.now (bytes_eq text.now) (view value.now) }
{
    match value.get(name).and_then(Tree::as_str) {
        Some(found) => text == found,
        None => false,
    }
}
