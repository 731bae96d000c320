//! The lines that name the files to fetch.

ghost use Rattle.std.specs.Prelude.{◌≡◌, ◌++◌, IfErr, IfOk, OnOk, flat_map, string_bytes};
ghost use Rattle.std.specs.Io.KnownBytes.{Appends};
ghost use Rattle.failure.specs.Failures.{IsLate};
ghost use Rattle.report.specs.Fetching as spec;

use failure::Failure;
use inout::{put, quote_name};
use needs::{Need, Place};
use std::alloc::{AllocError, Global};
use std::io::Write;

/// Prints a line for each file that is absent, in order: `need NAME MOST`, or `maybe NAME MOST` if
/// it may be absent for good, with the maximum number of bytes that it may have. If `only` is
/// given, prints the lines of the files of that folder alone. If the contract tracks the content of
/// `out`, it was given these lines and nothing else. Fails only if out of memory or by an output
/// error.
pub fn tell_needs<W: Write>(
    alloc: Global,
    needs: &[Need],
    only: Option<Place>,
    out: &mut W,
) -> Result<(), Failure>
    ensures written { OnOk result (Appends (W.contents out.old) (W.contents out.new)
        (spec.needs_text only needs.now)) }
    ensures refused { IfErr result IsLate }
{
    let text = text_of(alloc, needs, only)?;
    put(out, text.as_str())
}

/// Returns the lines of the files.
fn text_of(alloc: Global, needs: &[Need], only: Option<Place>) -> Result<String, AllocError>
    ensures { IfOk result (λ text. string_bytes text ≡ flat_map (spec.line_of only) needs.now) }
{
    let mut text = String::new(alloc);
    for need in needs {
        if is_of(only, need) {
            push_need(alloc, &mut text, need)?;
        }
    }
    Ok(text)
}

/// Returns whether the file is in that folder, or no folder is given.
fn is_of(only: Option<Place>, need: &Need) -> bool
    ensures { result ≡ spec.is_of only need.now }
{
    match (only, need.place) {
        (None, _)
        | (Some(Place::Metadata), Place::Metadata)
        | (Some(Place::Targets), Place::Targets) => true,
        (Some(Place::Metadata), Place::Targets) | (Some(Place::Targets), Place::Metadata) => false,
    }
}

/// Adds the line of a file.
fn push_need(alloc: Global, text: &mut String, need: &Need) -> Result<(), AllocError>
    ensures { OnOk result (string_bytes text.new
        ≡ string_bytes text.old ++ spec.need_text need.now) }
{
    let word = word_of(need.optional);
    let name = quote_name(alloc, need.name.as_str())?;
    let most = need.most;
    writeln!(text, "{word} {name} {most}")
}

fn word_of(optional: bool) -> &'static str
    ensures { result.now ≡ spec.need_word optional }
{
    if optional { "maybe" } else { "need" }
}
