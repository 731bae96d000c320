//! The lines that a ceremony prints.

ghost use Rattle.std.specs.Prelude.{◌≡◌, ◌++◌, ◌≤◌, IfErr, IfOk, OnOk, string_bytes};
ghost use Rattle.std.specs.Io.KnownBytes.{Appends};
ghost use Rattle.failure.specs.Failures.{IsLate};
ghost use Rattle.ceremony.specs.Printed as spec;

use cjson::DocFault;
use failure::Failure;
use inout::{put, quote_name};
use keys::Key;
use lms::{Height, Width};
use signing::{Attached, Invalid, KeyFault, kind_of, leaf_count};
use std::alloc::{AllocError, Global};
use std::io::Write;

/// Why a step of a ceremony is refused.
#[derive(Clone, Copy, Debug, PartialEq, Eq)]
pub enum Refusal {
    /// The bytes are no public key that counts.
    Key(KeyFault),
    /// The signature isn't valid.
    Signature(Invalid),
    /// The file is no key object with a usable key.
    KeyFile,
    /// The metadata file is malformed.
    File(DocFault),
    /// The file that lists the keys is malformed, or has no such role.
    Role,
}

impl Refusal {
    /// Returns the exit status: 1 if a key or a signature is refused, 2 if another file is.
    pub fn status(self) -> u8
        ensures value { result ≡ spec.refusal_status self }
        ensures known { result ≤ 2 }
    {
        match self {
            Refusal::Key(_) | Refusal::Signature(_) => 1,
            Refusal::KeyFile | Refusal::File(_) | Refusal::Role => 2,
        }
    }
}

/// Prints why the step is refused. Fails with `Memory` or `Output`.
pub(crate) fn put_refusal<W: Write>(
    alloc: Global,
    refusal: Refusal,
    out: &mut W,
) -> Result<(), Failure>
    ensures line { OnOk result (Appends (W.contents out.old) (W.contents out.new)
        (spec.refusal_text refusal)) }
    ensures refused { IfErr result IsLate }
{
    let mut text = String::new(alloc);
    push_refusal(&mut text, refusal)?;
    put(out, text.as_str())
}

fn push_refusal(text: &mut String, refusal: Refusal) -> Result<(), AllocError>
    ensures { OnOk result (string_bytes text.new
        ≡ string_bytes text.old ++ spec.refusal_text refusal) }
{
    match refusal {
        Refusal::Key(fault) => push_key_fault(text, fault),
        Refusal::Signature(why) => push_signature(text, why),
        Refusal::KeyFile => text.push_str("refused key\n"),
        Refusal::File(fault) => push_file_fault(text, fault),
        Refusal::Role => text.push_str("refused role\n"),
    }
}

fn push_key_fault(text: &mut String, fault: KeyFault) -> Result<(), AllocError>
    ensures { OnOk result (string_bytes text.new
        ≡ string_bytes text.old ++ spec.key_fault_text fault) }
{
    match fault {
        KeyFault::Length(length) => writeln!(text, "refused length {length}"),
        KeyFault::Levels(levels) => writeln!(text, "refused levels {levels}"),
        KeyFault::Kind => text.push_str("refused kind\n"),
        KeyFault::NoMemory => text.push_str("refused memory\n"),
    }
}

fn push_signature(text: &mut String, why: Invalid) -> Result<(), AllocError>
    ensures { OnOk result (string_bytes text.new
        ≡ string_bytes text.old ++ spec.signature_text why) }
{
    match why {
        Invalid::Hexadecimal => text.push_str("refused hexadecimal\n"),
        Invalid::Length(found, due) => writeln!(text, "refused length {found} {due}"),
        Invalid::Kind => text.push_str("refused kind\n"),
        Invalid::Leaf(leaf) => writeln!(text, "refused leaf {leaf}"),
        Invalid::Root => text.push_str("refused root\n"),
    }
}

fn push_file_fault(text: &mut String, fault: DocFault) -> Result<(), AllocError>
    ensures { OnOk result (string_bytes text.new
        ≡ string_bytes text.old ++ spec.file_fault_text fault) }
{
    match fault {
        DocFault::NotJson => text.push_str("refused json\n"),
        DocFault::NotObject => text.push_str("refused object\n"),
        DocFault::Float => text.push_str("refused float\n"),
        DocFault::BadSignatures => text.push_str("refused signatures\n"),
        DocFault::NoMemory => text.push_str("refused memory\n"),
    }
}

/// Returns the line of a key: its id, its kind and the number of its leaves.
pub(crate) fn key_line(alloc: Global, key: &Key) -> Result<String, AllocError>
    ensures line { IfOk result (λ text. string_bytes text ≡ spec.key_text key.now) }
{
    let id = quote_name(alloc, key.id.as_str())?;
    let kind = kind_of(&key.public);
    let width = width_word(kind.width);
    let height = height_word(kind.height);
    let leaves = leaf_count(kind.height);
    format!(in alloc; "key {id} {width} {height} {leaves}\n")
}

fn width_word(width: Width) -> &'static str
    ensures { result.now ≡ spec.width_word width }
{
    match width {
        Width::W4 => "W4",
        Width::W8 => "W8",
    }
}

fn height_word(height: Height) -> &'static str
    ensures { result.now ≡ spec.height_word height }
{
    match height {
        Height::H5 => "H5",
        Height::H10 => "H10",
        Height::H15 => "H15",
    }
}

/// Returns the line of a signature that was attached.
pub(crate) fn entry_line(
    alloc: Global,
    key: &Key,
    attached: &Attached,
) -> Result<String, AllocError>
    ensures line { IfOk result (λ text. string_bytes text
        ≡ spec.entry_text key.now attached.now) }
{
    let id = quote_name(alloc, key.id.as_str())?;
    let word = if attached.is_new { "entry" } else { "again" };
    let leaf = attached.leaf;
    format!(in alloc; "{word} {id} {leaf}\n")
}
