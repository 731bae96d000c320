//! The lines that show a trusted state.

ghost use Rattle.std.specs.Prelude.{◌≡◌, ◌≤◌, ◌++◌, Option, IfErr, IfOk, OnOk};
ghost use Rattle.std.specs.Prelude.{flat_map, string_bytes};
ghost use Rattle.std.specs.Io.KnownBytes.{Appends};
ghost use Rattle.std.specs.List.{list_any};
ghost use Rattle.failure.specs.Failures.{IsLate};
ghost use Rattle.report.specs.Shown as spec;

use crate::lines::step_name;
use cycle::{Step, Trusted};
use failure::Failure;
use inout::{moment_text, put};
use meta::Header;
use moment::Moment;
use rolechain::headers;
use std::alloc::{AllocError, Global};
use std::io::Write;

/// Prints a line for the root and, each where trusted, for the timestamp, the snapshot and the
/// top-level targets file: `STEP VERSION EXPIRES`, with the moment at which the file expires.
/// Returns 1 if `before` is given and one of these files expires before it, else 0. If the contract
/// tracks the content of `out`, it was given these lines and nothing else. Fails only if out of
/// memory or by an output error.
pub fn show<W: Write>(
    alloc: Global,
    trusted: &Trusted,
    before: Option<Moment>,
    out: &mut W,
) -> Result<u8, Failure>
    ensures written { OnOk result (Appends (W.contents out.old) (W.contents out.new)
        (spec.shown_text trusted.now)) }
    ensures status { IfOk result (λ status. status ≡ spec.shown_status before trusted.now) }
    ensures known { IfOk result (λ status. status ≤ 1) }
    ensures refused { IfErr result IsLate }
{
    let files = headers(trusted);
    let text = text_of(alloc, &files)?;
    put(out, text.as_str())?;
    Ok(status_of(&files, before))
}

/// Returns the lines of the files that are trusted.
fn text_of(alloc: Global, files: &[(Step, Option<Header>)]) -> Result<String, AllocError>
    ensures lines { IfOk result (λ text. string_bytes text
        ≡ flat_map spec.file_text files.now) }
{
    let mut text = String::new(alloc);
    for file in files {
        push_file(alloc, &mut text, file)?;
    }
    Ok(text)
}

/// Adds the line of a file, if it is trusted.
fn push_file(
    alloc: Global,
    text: &mut String,
    file: &(Step, Option<Header>),
) -> Result<(), AllocError>
    ensures line { OnOk result (string_bytes text.new
        ≡ string_bytes text.old ++ spec.file_text file.now) }
{
    match file.1 {
        Some(header) => push_header(alloc, text, file.0, &header),
        None => Ok(()),
    }
}

/// Adds the line `STEP VERSION EXPIRES`.
fn push_header(
    alloc: Global,
    text: &mut String,
    step: Step,
    header: &Header,
) -> Result<(), AllocError>
    ensures line { OnOk result (string_bytes text.new
        ≡ string_bytes text.old ++ spec.file_text (step, Option.Some header.now)) }
{
    let expires = moment_text(alloc, header.expires)?;
    let (step, version) = (step_name(step), header.version.get());
    writeln!(text, "{step} {version} {expires}")
}

/// Returns the status of these files.
fn status_of(files: &[(Step, Option<Header>)], before: Option<Moment>) -> u8
    ensures status { result ≡ spec.status_of before files.now }
    ensures known { result ≤ 1 }
{
    match before {
        Some(moment) => u8::from(are_due(files, moment)),
        None => 0,
    }
}

/// Returns whether one of the files is trusted and expires before the moment.
fn are_due(files: &[(Step, Option<Header>)], moment: Moment) -> bool
    ensures { result ≡ list_any (spec.is_due moment) files.now }
{
    files.iter().any(|file| is_due(file, moment))
}

fn is_due(file: &(Step, Option<Header>), moment: Moment) -> bool
    ensures { result ≡ spec.is_due moment file.now }
{
    match file.1 {
        Some(header) => header.expires.is_before(moment),
        None => false,
    }
}
