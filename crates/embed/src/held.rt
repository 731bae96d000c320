//! The target files of a job, by name.

ghost use Rattle.std.specs.Prelude.{◌≡◌, ◌⊎◌, IfErr, OnOk, string_bytes};
ghost use Rattle.std.specs.Str.{IsUtf8};
ghost use Rattle.embed.specs.Inputs.{given_by, held_in};
ghost use Rattle.embed.specs.Jobs as spec;

use crate::fault::JobFault;
use crate::job::{Digests, File, Job, text_of};
use std::alloc::Global;
use std::collections::BTreeMap;

/// What the caller holds of a target file.
#[derive(Clone, Copy)]
pub enum Held<'a> {
    /// The index in the job's `targets`, and the bytes.
    Bytes(usize, &'a [u8]),
    /// The index in the job's `digests`, and the length and the digests.
    Digests(usize, &'a Digests<'a>),
}

/// Adds the target files of the job, by name. Fails with `Name` if a name isn't UTF-8, or with
/// `Memory`.
pub(crate) fn add_targets<'a>(
    alloc: Global,
    job: &Job<'a>,
    all: &mut BTreeMap<String, Held<'a>>,
) -> Result<(), JobFault>
    ensures added { OnOk result (held_in all.old ≡ spec.nothing_given
        → held_in all.new ≡ spec.givens_of job.now) }
    ensures errors { IfErr result (λ f.
        spec.IsNoText (spec.AreNamed job.now.targets.now) f
        ⊎ spec.IsNoText (spec.AreDigestsNamed job.now.digests.now) f) }
{
    add_files(alloc, job.targets, all)?;
    add_digests(alloc, job.digests, all)
}

/// Adds each file under its name.
fn add_files<'a>(
    alloc: Global,
    files: &'a [File<'a>],
    all: &mut BTreeMap<String, Held<'a>>,
) -> Result<(), JobFault>
    ensures added { OnOk result
        (held_in all.new ≡ spec.with_files 0 (held_in all.old) files.now) }
    ensures errors { IfErr result (spec.IsNoText (spec.AreNamed files.now)) }
{
    for (at, file) in files.iter().enumerate() {
        add(alloc, file.name, Held::Bytes(at, file.bytes), all)?;
    }
    Ok(())
}

/// Adds the digests of each file under its name.
fn add_digests<'a>(
    alloc: Global,
    digests: &'a [Digests<'a>],
    all: &mut BTreeMap<String, Held<'a>>,
) -> Result<(), JobFault>
    ensures added { OnOk result
        (held_in all.new ≡ spec.with_digests 0 (held_in all.old) digests.now) }
    ensures errors { IfErr result (spec.IsNoText (spec.AreDigestsNamed digests.now)) }
{
    for (at, row) in digests.iter().enumerate() {
        add(alloc, row.name, Held::Digests(at, row), all)?;
    }
    Ok(())
}

/// Adds a file under the name.
fn add<'a>(
    alloc: Global,
    name: &[u8],
    held: Held<'a>,
    all: &mut BTreeMap<String, Held<'a>>,
) -> Result<(), JobFault>
    ensures added { OnOk result
        (held_in all.new ≡ spec.with_given (held_in all.old) name.now (given_by held.entry)) }
    ensures errors { IfErr result (spec.IsNoText (IsUtf8 name.now)) }
{
    let name = text_of(alloc, name)?;
    all.insert(name, held)?;
    Ok(())
}
