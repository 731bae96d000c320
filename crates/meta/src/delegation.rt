//! Delegations, and the paths that they are for.

ghost use Rattle.std.specs.Prelude.{◌≡◌, true};
ghost use Rattle.std.specs.List.{list_all};
ghost use Rattle.cjson.specs.Tree.{view};
ghost use Rattle.meta.specs.Metadata as spec;
ghost use Rattle.meta.specs.Patterns as rule;
ghost use Rattle.cjson.specs.Form.{Reads};

use cjson::form::{FromJson, needed_member, optional_member};
use cjson::list::Items;
use cjson::text::Text;
use cjson::{ReadFault, Tree};
use keys::RoleKeys;
use std::alloc::Global;
use std::marker::Model;

/// A pattern of paths, without a `[`.
pub struct PathPattern {
    text: Text,
}

impl Drop for PathPattern {
    fn drop(self) {
        let PathPattern { text } = self;
    }
}

impl Model for PathPattern {
    ghost use Rattle.std.specs.Prelude.{◌≡◌, List, ℕ, true};
    ghost use Rattle.meta.specs.Patterns as rule;

    ghost Value = { List ℕ };

    ghost view = { λ p. p.text };

    ghost invariant = { λ p. rule.is_pattern p.text ≡ true };
}

impl PathPattern {
    /// Returns the pattern's text.
    pub fn as_str(&self) -> &str
        ensures value { result.now ≡ self.now }
        ensures form { rule.is_pattern result.now ≡ true }
    {
        self.text.as_str()
    }
}

impl FromJson for PathPattern {
    ghost form = { spec.text_that rule.is_pattern };

    fn from_json(alloc: Global, value: &Tree) -> Result<PathPattern, ReadFault> {
        let text: Text = FromJson::from_json(alloc, value)?;
        if !is_pattern(text.as_str()) {
            return Err(ReadFault::Malformed);
        }
        Ok(PathPattern { text })
    }
}

fn is_pattern(text: &str) -> bool
    ensures { result ≡ rule.is_pattern text.now }
{
    text.as_bytes().iter().all(|c| *c != b'[')
}

/// The first digits of a path's digest: 1 to 64 digits from `0` to `9` and `a` to `f`.
pub struct HashPrefix {
    text: Text,
}

impl Drop for HashPrefix {
    fn drop(self) {
        let HashPrefix { text } = self;
    }
}

impl Model for HashPrefix {
    ghost use Rattle.std.specs.Prelude.{◌≡◌, List, ℕ, true};
    ghost use Rattle.meta.specs.Patterns as rule;

    ghost Value = { List ℕ };

    ghost view = { λ p. p.text };

    ghost invariant = { λ p. rule.is_prefix p.text ≡ true };
}

impl HashPrefix {
    /// Returns the first digits of the digest.
    pub fn digits(&self) -> &str
        ensures value { result.now ≡ self.now }
        ensures form { rule.is_prefix result.now ≡ true }
    {
        self.text.as_str()
    }
}

impl FromJson for HashPrefix {
    ghost form = { spec.text_that rule.is_prefix };

    fn from_json(alloc: Global, value: &Tree) -> Result<HashPrefix, ReadFault> {
        let text: Text = FromJson::from_json(alloc, value)?;
        if !is_prefix(text.as_str()) {
            return Err(ReadFault::Malformed);
        }
        Ok(HashPrefix { text })
    }
}

fn is_prefix(digits: &str) -> bool
    ensures { result ≡ rule.is_prefix digits.now }
{
    !digits.is_empty() && digits.len() <= 64 && are_lower_digits(digits.as_bytes())
}

fn are_lower_digits(bytes: &[u8]) -> bool
    ensures { result ≡ list_all rule.is_lower_digit bytes.now }
{
    bytes.iter().all(|c| is_lower_digit(*c))
}

fn is_lower_digit(c: u8) -> bool
    ensures { result ≡ rule.is_lower_digit c }
{
    matches!(c, b'0'..=b'9' | b'a'..=b'f')
}

/// Which paths a delegation is for (TUF 1.0 section 4.5).
pub enum Paths {
    /// The paths that one of the patterns matches.
    Patterns(Items<PathPattern>),
    /// The paths whose digest begins with one of the prefixes.
    Prefixes(Items<HashPrefix>),
}

impl Drop for Paths {
    fn drop(self) {
        match self {
            Paths::Patterns(part) => {}
            Paths::Prefixes(part) => {}
        }
    }
}

/// A delegation to a role (TUF 1.0 section 4.5).
pub struct Delegation {
    /// The role's name.
    pub name: Text,
    /// The keys that must sign the role's file, and how many.
    pub keys: RoleKeys,
    /// Whether a search that reaches the delegation tries none after it.
    pub terminating: bool,
    /// The paths that it is for.
    pub paths: Paths,
}

impl Drop for Delegation {
    fn drop(self) {
        let Delegation {
            name,
            keys,
            terminating,
            paths,
        } = self;
    }
}

impl FromJson for Paths {
    ghost form = { spec.paths };

    fn from_json(alloc: Global, value: &Tree) -> Result<Paths, ReadFault> {
        let patterns = optional_member(alloc, value, "paths")?;
        let prefixes = optional_member(alloc, value, "path_hash_prefixes")?;
        match (patterns, prefixes) {
            (Some(found), None) => Ok(Paths::Patterns(found)),
            (None, Some(found)) => Ok(Paths::Prefixes(found)),
            _ => Err(ReadFault::Malformed),
        }
    }
}

impl FromJson for Delegation {
    ghost form = { spec.delegation };

    fn from_json(alloc: Global, value: &Tree) -> Result<Delegation, ReadFault> {
        Ok(Delegation {
            name: needed_member(alloc, value, "name")?,
            keys: RoleKeys::from_json(alloc, value)?,
            terminating: flag(alloc, value, "terminating")?,
            paths: Paths::from_json(alloc, value)?,
        })
    }
}

/// Reads a member that is true or false, or false if it is absent.
pub(crate) fn flag(alloc: Global, value: &Tree, name: &str) -> Result<bool, ReadFault>
    ensures { Reads (spec.flag name.now (view value.now)) result }
{
    Ok(optional_member(alloc, value, name)?.unwrap_or(false))
}
