//! The text of a trusted state.

ghost use Rattle.std.specs.Prelude.{◌≡◌, ◌++◌, Ok, Some, IfOk, OnOk};
ghost use Rattle.cjson.specs.Canon.{canon};
ghost use Rattle.meta.specs.Content.{part_of};
ghost use Rattle.rolechain.specs.Kept as spec;
ghost use Rattle.rolechain.specs.Text.{ReadsState, or_state_fault, of_fault, root_state, state_of};
ghost use Rattle.rolechain.specs.Text.{kept_in, lent_bytes, part_in, state_in};

use crate::fault::StateFault;
use crate::state::Trusted;
use cjson::form::{FromJson, needed_member, optional_member};
use cjson::{NoMemory, ReadFault, Tree, read_tree};
use meta::{Fault, Part, Reading, Root, Snapshot, Stop, Targets, Timestamp};
use std::alloc::{AllocError, Global};
use std::marker::Model;

/// Bytes, read from a text in hexadecimal.
#[derive(Drop)]
pub(crate) struct Hex {
    bytes: Vec<u8>,
}

impl Model for Hex {
    ghost use Rattle.std.specs.Prelude.{List, ℕ};

    ghost Value = { List ℕ };

    ghost view = { λ h. h.bytes.items };
}

impl FromJson for Hex {
    ghost form = { spec.hex_text };

    fn from_json(alloc: Global, value: &Tree) -> Result<Hex, ReadFault> {
        let text = value.as_str().ok_or(ReadFault::Malformed)?;
        match hex::decode(alloc, text) {
            Ok(bytes) => Ok(Hex { bytes }),
            Err(hex::FromHexError::OutOfMemory) => Err(ReadFault::NoMemory),
            Err(_) => Err(ReadFault::Malformed),
        }
    }
}

/// The files that a state's text contains.
#[derive(Drop)]
pub(crate) struct Kept {
    /// The root file.
    pub root: Hex,
    /// The snapshot file, if one is trusted.
    pub snapshot: Option<Hex>,
    /// The top-level targets file, if one is trusted.
    pub targets: Option<Hex>,
    /// The timestamp file, if one is trusted.
    pub timestamp: Option<Hex>,
}

impl FromJson for Kept {
    ghost form = { spec.kept };

    fn from_json(alloc: Global, value: &Tree) -> Result<Kept, ReadFault> {
        Ok(Kept {
            root: needed_member(alloc, value, "root")?,
            snapshot: optional_member(alloc, value, "snapshot")?,
            targets: optional_member(alloc, value, "targets")?,
            timestamp: optional_member(alloc, value, "timestamp")?,
        })
    }
}

impl Trusted {
    /// Returns the state of a root file alone, which the caller trusts: no signature is checked.
    /// Fails with `TooLong` over 512,000 bytes, with `Malformed` if it isn't a root file, or with
    /// `NoMemory`.
    pub fn from_root(alloc: Global, bytes: &[u8]) -> Result<Trusted, StateFault>
        ensures state { ReadsState (root_state bytes.now) result }
    {
        let root = read_part(alloc, Vec::from_slice(alloc, bytes)?)?;
        Ok(Trusted::of(root, None, None, None))
    }

    /// Reads a state from the text of a state file. Fails with `Malformed` if the text hasn't the
    /// form that `to_text` writes, then with `TooLong` if a file is over the limit of its kind,
    /// then with `Malformed` if a file is malformed; or with `NoMemory`. No other text is read as
    /// the same state.
    pub fn from_text(alloc: Global, text: &[u8]) -> Result<Trusted, StateFault>
        ensures state { ReadsState (state_of text.now) result }
        ensures own { IfOk result (λ t. text.now ≡ spec.kept_text (spec.kept_of t)) }
    {
        let kept = kept_in(alloc, text)?;
        if has_long(&kept) {
            return Err(StateFault::TooLong);
        }
        state_in(alloc, kept)
    }

    /// Returns the text of a state file: the canonical JSON of an object whose members `root` and,
    /// if trusted, `snapshot`, `targets` and `timestamp` are the files in lower-case hexadecimal.
    /// `from_text` reads it as this state, so no other state has this text. Fails only if out of
    /// memory.
    pub fn to_text(&self, alloc: Global) -> Result<Vec<u8>, NoMemory>
        ensures text { IfOk result (λ text. text.items
            ≡ spec.kept_text (spec.kept_of self.now)) }
        ensures tree { IfOk result (λ text.
            canon (spec.kept_tree (spec.kept_of self.now)) ≡ Some text.items) }
        ensures read { IfOk result (λ text. state_of text.items ≡ Ok self.now) }
    {
        let root = self.root.bytes();
        let snapshot = self.snapshot.as_ref().map(|part| part.bytes());
        let targets = self.targets.as_ref().map(|part| part.bytes());
        let timestamp = self.timestamp.as_ref().map(|part| part.bytes());
        text_of(alloc, root, snapshot, targets, timestamp)
    }
}

/// Reads the files of a state's text.
fn kept_in(alloc: Global, text: &[u8]) -> Result<Kept, StateFault>
    ensures { ReadsState (kept_in text.now) result }
{
    let tree = read_tree(alloc, text)?;
    let kept = Kept::from_json(alloc, &tree)?;
    let spelled = own_text(alloc, &kept)?;
    if text != spelled.as_slice() {
        return Err(StateFault::Malformed);
    }
    Ok(kept)
}

/// Reads the file of these bytes.
fn read_part<A: Reading + Drop>(alloc: Global, bytes: Vec<u8>) -> Result<Part<A>, StateFault>
    ensures { ReadsState (or_state_fault (part_of A.form A.limit bytes.items)) result }
{
    match Part::read(alloc, bytes) {
        Ok(part) => Ok(part),
        Err(Stop::Refused(fault)) => Err(of_fault(fault)),
        Err(Stop::NoMemory) => Err(StateFault::NoMemory),
    }
}

fn of_fault(fault: Fault) -> StateFault
    ensures { result ≡ of_fault fault }
{
    match fault {
        Fault::TooLong => StateFault::TooLong,
        _ => StateFault::Malformed,
    }
}

fn own_text(alloc: Global, kept: &Kept) -> Result<Vec<u8>, NoMemory>
    ensures { IfOk result (λ text. text.items ≡ spec.kept_text kept.now) }
{
    let root = kept.root.bytes.as_slice();
    let snapshot = bytes_of(&kept.snapshot);
    let targets = bytes_of(&kept.targets);
    let timestamp = bytes_of(&kept.timestamp);
    text_of(alloc, root, snapshot, targets, timestamp)
}

fn bytes_of(hex: &Option<Hex>) -> Option<&[u8]>
    ensures { lent_bytes result ≡ hex.now }
{
    Some(hex.as_ref()?.bytes.as_slice())
}

fn has_long(kept: &Kept) -> bool
    ensures { result ≡ spec.has_long kept.now }
{
    kept.root.bytes.len() as u64 > Root::limit()
        || is_over(Snapshot::limit(), &kept.snapshot)
        || is_over(Targets::limit(), &kept.targets)
        || is_over(Timestamp::limit(), &kept.timestamp)
}

fn is_over(limit: u64, hex: &Option<Hex>) -> bool
    ensures { result ≡ spec.is_over limit hex.now }
{
    let bytes = bytes_of(hex);
    bytes.is_some_and(|bytes| bytes.len() as u64 > limit)
}

/// Reads the files in turn, as a state.
fn state_in(alloc: Global, kept: Kept) -> Result<Trusted, StateFault>
    ensures { ReadsState (state_in kept) result }
{
    let root = read_part(alloc, kept.root.bytes)?;
    let snapshot = part_in(alloc, kept.snapshot)?;
    let targets = part_in(alloc, kept.targets)?;
    let timestamp = part_in(alloc, kept.timestamp)?;
    Ok(Trusted::of(root, timestamp, snapshot, targets))
}

fn part_in<A: Reading + Drop>(
    alloc: Global,
    hex: Option<Hex>,
) -> Result<Option<Part<A>>, StateFault>
    ensures { ReadsState (part_in (part_of A.form A.limit) hex) result }
{
    match hex {
        Some(hex) => Ok(Some(read_part(alloc, hex.bytes)?)),
        None => Ok(None),
    }
}

/// Returns the text of the files of a state.
fn text_of(
    alloc: Global,
    root: &[u8],
    snapshot: Option<&[u8]>,
    targets: Option<&[u8]>,
    timestamp: Option<&[u8]>,
) -> Result<Vec<u8>, NoMemory>
    ensures { IfOk result (λ text. text.items ≡ spec.kept_text (record {
      root = root.now;
      snapshot = lent_bytes snapshot.entry;
      targets = lent_bytes targets.entry;
      timestamp = lent_bytes timestamp.entry;
    })) }
{
    let mut out = Vec::new(alloc);
    out.push(b'{')?;
    push_member(alloc, &mut out, "root", root)?;
    push_later(alloc, &mut out, "snapshot", snapshot)?;
    push_later(alloc, &mut out, "targets", targets)?;
    push_later(alloc, &mut out, "timestamp", timestamp)?;
    out.push(b'}')?;
    Ok(out)
}

fn push_later(
    alloc: Global,
    out: &mut Vec<u8>,
    name: &str,
    bytes: Option<&[u8]>,
) -> Result<(), AllocError>
    ensures { OnOk result (out.new.items ≡ out.old.items
        ++ spec.later_text name.now (lent_bytes bytes.entry)) }
{
    match bytes {
        Some(bytes) => {
            out.push(b',')?;
            push_member(alloc, out, name, bytes)
        }
        None => Ok(()),
    }
}

fn push_member(alloc: Global, out: &mut Vec<u8>, name: &str, bytes: &[u8]) -> Result<(), AllocError>
    ensures { OnOk result (out.new.items ≡ out.old.items ++ spec.member_text name.now bytes.now) }
{
    let hex = hex::encode(alloc, bytes)?;
    out.push(b'"')?;
    out.extend_from_slice(name.as_bytes())?;
    out.extend_from_slice(b"\":\"")?;
    out.extend_from_slice(hex.as_bytes())?;
    out.extend_from_slice(b"\"")?;
    Ok(())
}
