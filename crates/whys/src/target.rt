//! The lines of why a target's file is refused.

ghost use Rattle.std.specs.Prelude.{◌≡◌, ◌++◌, IfOk, OnOk, option_map, string_bytes};
ghost use Rattle.whys.specs.Places.{target_place};
ghost use Rattle.whys.specs.Whys as spec;

use crate::lines::{lines_of, push_absent};
use crate::place::Place;
use cjson::NoMemory;
use cjson::text::Text;
use folder::Measure;
use meta::Target;
use meta::names::digest_name;
use reasons::why_target_refused;
use std::alloc::{AllocError, Global};

/// A target's file that is there: its name in the repository, and its measure.
#[derive(Clone, Copy)]
pub struct Measured<'a> {
    /// The file's name.
    pub name: &'a str,
    /// Its length and digests.
    pub measure: &'a Measure,
}

/// Returns the lines of why a target's file is refused (TUF 1.0 section 5.7), and no line if it
/// isn't. `consistent` is whether files have consistent names. No file is read. Fails only if out
/// of memory.
pub fn target_lines(
    alloc: Global,
    consistent: bool,
    target: &Target,
    found: Option<Measured<'_>>,
) -> Result<String, NoMemory>
    ensures lines { IfOk result (λ text. string_bytes text ≡ spec.target_text consistent target.now
        (option_map (λ f. (f.name.now, f.measure.now)) found.entry)) }
{
    let Some(found) = found else {
        return absent_lines(alloc, consistent, target);
    };
    let reason = why_target_refused(target, Some(found.measure));
    let place = target_place(alloc, &found)?;
    lines_of(alloc, &place, &reason)
}

fn target_place(alloc: Global, found: &Measured<'_>) -> Result<Place, NoMemory>
    ensures { IfOk result (λ p. p ≡ target_place found.now.name.now found.now.measure.now) }
{
    Ok(Place {
        file: Text::new(String::from_str(alloc, found.name)?),
        length: Some(found.measure.length),
        by: Text::new(String::new(alloc)),
        snapshot: None,
    })
}

/// Returns a line for each name under which the target's file was looked up.
fn absent_lines(alloc: Global, consistent: bool, target: &Target) -> Result<String, NoMemory>
    ensures { IfOk result (λ text. string_bytes text ≡ spec.names_text consistent target.now) }
{
    let mut text = String::new(alloc);
    let path = target.path.as_str();
    if !consistent {
        push_absent(alloc, &mut text, path)?;
        return Ok(text);
    }
    let hashes = &target.hashes;
    push_under(
        alloc,
        &mut text,
        path,
        hashes.sha256.as_ref().map(|d| d.as_slice()),
    )?;
    push_under(
        alloc,
        &mut text,
        path,
        hashes.sha512.as_ref().map(|d| d.as_slice()),
    )?;
    Ok(text)
}

/// Adds the line of the name under that digest, if it is listed.
fn push_under(
    alloc: Global,
    text: &mut String,
    path: &str,
    digest: Option<&[u8]>,
) -> Result<(), AllocError>
    ensures { OnOk result (string_bytes text.new ≡ string_bytes text.old
        ++ spec.under_text path.now (option_map (λ d. d.now) digest.entry)) }
{
    let Some(digest) = digest else {
        return Ok(());
    };
    let name = digest_name(alloc, digest, path)?;
    push_absent(alloc, text, name.as_str())
}
