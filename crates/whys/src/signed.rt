//! The lines of who signed a file.

ghost use Rattle.std.specs.Prelude.{◌≡◌, ◌++◌, IfOk, OnOk, flat_map, string_bytes};
ghost use Rattle.inout.specs.Quoted.{cut_text};
ghost use Rattle.whys.specs.Signed as spec;

use inout::quote_cut;
use signing::{Invalid, KeyFinding, ListedKey, Signing, Unusable};
use std::alloc::{AllocError, Global};

/// Returns the lines of who signed, of the keys that this file lists: one of the threshold, one for
/// each id that has a finding, and one of how many ids are left. Fails only if out of memory.
pub fn signing_lines(alloc: Global, file: &str, signing: &Signing) -> Result<String, AllocError>
    ensures lines { IfOk result
        (λ text. string_bytes text ≡ spec.signing_text file.now signing.now) }
{
    let mut text = keys_line(alloc, file, signing.threshold, signing.signed)?;
    let keys = signing.keys.as_slice();
    push_findings(alloc, &mut text, keys)?;
    push_more(&mut text, signing.listed.saturating_sub(keys.len()))?;
    Ok(text)
}

fn keys_line(alloc: Global, file: &str, threshold: u64, signed: usize) -> Result<String, AllocError>
    ensures { IfOk result
        (λ text. string_bytes text ≡ spec.keys_text file.now threshold signed) }
{
    let file = quote_cut(alloc, file)?;
    format!(in alloc; "why keys {file} threshold {threshold} signed {signed}\n")
}

fn push_findings(alloc: Global, text: &mut String, keys: &[ListedKey]) -> Result<(), AllocError>
    ensures { OnOk result (string_bytes text.new
        ≡ string_bytes text.old ++ flat_map spec.finding_text keys.now) }
{
    for listed in keys {
        push_finding(alloc, text, listed)?;
    }
    Ok(())
}

/// Adds how many more there are than have a line, if there are more.
pub(crate) fn push_more(text: &mut String, more: usize) -> Result<(), AllocError>
    ensures { OnOk result (string_bytes text.new
        ≡ string_bytes text.old ++ spec.more_text more) }
{
    if more == 0 {
        return Ok(());
    }
    writeln!(text, "why more {more}")
}

fn push_finding(alloc: Global, text: &mut String, listed: &ListedKey) -> Result<(), AllocError>
    ensures { OnOk result (string_bytes text.new
        ≡ string_bytes text.old ++ spec.finding_text listed.now) }
{
    let id = quote_cut(alloc, listed.id.as_str())?;
    match &listed.finding {
        KeyFinding::Unusable(why) => push_unusable(alloc, text, id.as_str(), why),
        KeyFinding::Signed(leaf) => push_signed(text, id.as_str(), *leaf),
        KeyFinding::Again(other) => push_again(alloc, text, id.as_str(), other.as_str()),
        KeyFinding::Unsigned => push_unsigned(text, id.as_str()),
        KeyFinding::Invalid(count, why) => push_invalid(text, id.as_str(), *count, *why),
    }
}

fn push_signed(text: &mut String, id: &str, leaf: u32) -> Result<(), AllocError>
    ensures { OnOk result (string_bytes text.new
        ≡ string_bytes text.old ++ spec.signed_text id.now leaf) }
{
    writeln!(text, "why key {id} signed {leaf}")
}

fn push_again(alloc: Global, text: &mut String, id: &str, other: &str) -> Result<(), AllocError>
    ensures { OnOk result (string_bytes text.new
        ≡ string_bytes text.old ++ spec.again_text id.now other.now) }
{
    let other = quote_cut(alloc, other)?;
    writeln!(text, "why key {id} again {other}")
}

fn push_unsigned(text: &mut String, id: &str) -> Result<(), AllocError>
    ensures { OnOk result (string_bytes text.new
        ≡ string_bytes text.old ++ spec.unsigned_text id.now) }
{
    writeln!(text, "why key {id} unsigned")
}

fn push_unusable(
    alloc: Global,
    text: &mut String,
    id: &str,
    why: &Unusable,
) -> Result<(), AllocError>
    ensures { OnOk result (string_bytes text.new
        ≡ string_bytes text.old ++ spec.unusable_text id.now why.now) }
{
    match why {
        Unusable::Absent => writeln!(text, "why key {id} absent"),
        Unusable::Type(name) => push_other_type(alloc, text, id, name.as_str()),
        Unusable::Kind => writeln!(text, "why key {id} unusable kind"),
        Unusable::Id => writeln!(text, "why key {id} unusable id"),
    }
}

fn push_other_type(alloc: Global, text: &mut String, id: &str, name: &str) -> Result<(), AllocError>
    ensures { OnOk result (string_bytes text.new
        ≡ string_bytes text.old ++ spec.other_type_text id.now (cut_text name.now)) }
{
    let quoted = quote_cut(alloc, name)?;
    push_type(text, id, quoted.as_str())
}

fn push_type(text: &mut String, id: &str, quoted: &str) -> Result<(), AllocError>
    ensures { OnOk result (string_bytes text.new
        ≡ string_bytes text.old ++ spec.other_type_text id.now quoted.now) }
{
    writeln!(text, "why key {id} unusable type {quoted}")
}

fn push_invalid(text: &mut String, id: &str, count: usize, why: Invalid) -> Result<(), AllocError>
    ensures { OnOk result (string_bytes text.new
        ≡ string_bytes text.old ++ spec.invalid_text id.now count why) }
{
    match why {
        Invalid::Hexadecimal => writeln!(text, "why key {id} invalid {count} hexadecimal"),
        Invalid::Length(found, due) => {
            writeln!(text, "why key {id} invalid {count} length {found} {due}")
        }
        Invalid::Kind => writeln!(text, "why key {id} invalid {count} kind"),
        Invalid::Leaf(leaf) => writeln!(text, "why key {id} invalid {count} leaf {leaf}"),
        Invalid::Root => writeln!(text, "why key {id} invalid {count} root"),
    }
}
