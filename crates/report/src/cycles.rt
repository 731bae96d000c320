//! The lines of one cycle after another.

ghost use Rattle.failure.specs.Failures.{IsLate};
ghost use Rattle.std.specs.Prelude.{◌≡◌, ◌≤◌, ℕ, ◌++◌, IfErr, IfOk, OnOk, map, string_bytes};
ghost use Rattle.std.specs.Io.KnownBytes.{Appends};
ghost use Rattle.report.specs.Lines as spec;
ghost use Rattle.report.specs.Lines.{IsStatus};

use crate::lines::{outcome_status, push_outcome};
use crate::told::Told;
use failure::Failure;
use inout::put;
use std::alloc::{AllocError, Global};
use std::io::Write;

/// Prints for each cycle, in order, the line `cycle K`, counted from 1, and then its lines, as
/// [`tell`](crate::tell) does. Returns the status of the last one, or 0 if there is none. Fails
/// with `Memory` or `Output`.
pub fn tell_cycles<W: Write>(
    alloc: Global,
    all: &[Told],
    wanted: &[String],
    out: &mut W,
) -> Result<u8, Failure>
    ensures written { OnOk result (Appends (W.contents out.old) (W.contents out.new)
        (spec.cycles_text (map string_bytes wanted.now) all.now)) }
    ensures status { IfOk result (λ status. status ≡ spec.last_status all.now) }
    ensures known { IfOk result IsStatus }
    ensures refused { IfErr result IsLate }
{
    let text = text_of(alloc, all, wanted)?;
    put(out, text.as_str())?;
    Ok(last_status(all))
}

/// Returns the status of the last cycle.
fn last_status(all: &[Told]) -> u8
    ensures status { result ≡ spec.last_status all.now }
    ensures known { result ≤ 2 }
{
    match all.last() {
        Some(told) => outcome_status(&told.outcome),
        None => 0,
    }
}

/// Returns all lines of the cycles.
fn text_of(alloc: Global, all: &[Told], wanted: &[String]) -> Result<String, AllocError>
    ensures lines { IfOk result (λ text. string_bytes text
        ≡ spec.cycles_text (map string_bytes wanted.now) all.now) }
{
    let mut text = String::new(alloc);
    for (place, told) in all.iter().enumerate() {
        push_cycle(alloc, &mut text, place + 1, told, wanted)?;
    }
    Ok(text)
}

/// Adds the line `cycle K` and the outcome's lines.
fn push_cycle(
    alloc: Global,
    text: &mut String,
    number: usize,
    told: &Told,
    wanted: &[String],
) -> Result<(), AllocError>
    ensures lines { OnOk result (string_bytes text.new ≡ string_bytes text.old
        ++ spec.cycle_text (map string_bytes wanted.now) (number, told.now)) }
{
    writeln!(text, "cycle {number}")?;
    push_outcome(alloc, text, told, wanted, &[])
}
