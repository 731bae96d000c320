//! The steps of a signing ceremony, on the file system.

ghost use Rattle.std.specs.Prelude.{◌≡◌, ◌≢◌, IfErr, IfOk};
ghost use Rattle.report.specs.Lines.{IsStatus};
ghost use Rattle.command.specs.Steps.{IsAttaching, IsMaking, IsNaming, IsPrinting};

use ceremony::{AttachPaths, By, attach_file, make_key_file, print_signers, print_text};
use failure::Failure;
use std::alloc::Global;
use std::io::Write;
use system::Machine;

/// Makes the key object of the public key of a path.
pub(crate) fn key<W: Write>(
    rt: &HostRuntime,
    alloc: Global,
    from: &str,
    to: &str,
    mut out: W,
) -> (Result<u8, Failure>, W)
    ensures known { IfOk result.0 IsStatus }
    ensures made { IfOk result.0 (IsMaking from.now to.now
        (W.contents out) (W.contents result.1)) }
    ensures quiet { IfErr result.0 (λ f. f ≢ Failure.Memory → f ≢ Failure.Output
        → W.contents result.1 ≡ W.contents out) }
{
    let mut system = Machine::new(rt);
    let done = make_key_file(alloc, &mut system, from, to, &mut out);
    (done, out)
}

/// Prints the text of the metadata file of a path, or to standard error why there is none.
pub(crate) fn text<W: Write>(
    rt: &HostRuntime,
    alloc: Global,
    file: &str,
    mut out: W,
) -> (Result<u8, Failure>, W)
    ensures known { IfOk result.0 IsStatus }
    ensures printed { IfOk result.0 (IsPrinting (W.contents out) (W.contents result.1)) }
    ensures quiet { IfErr result.0 (λ f. f ≢ Failure.Memory → f ≢ Failure.Output
        → W.contents result.1 ≡ W.contents out) }
{
    let done = print_text(alloc, &Machine::new(rt), file, &mut out, &mut rt.stderr());
    (done, out)
}

/// Attaches a signature to the metadata file of a path.
pub(crate) fn attach<W: Write>(
    rt: &HostRuntime,
    alloc: Global,
    paths: &AttachPaths<'_>,
    mut out: W,
) -> (Result<u8, Failure>, W)
    ensures known { IfOk result.0 IsStatus }
    ensures attached { IfOk result.0 (IsAttaching paths.now
        (W.contents out) (W.contents result.1)) }
    ensures quiet { IfErr result.0 (λ f. f ≢ Failure.Memory → f ≢ Failure.Output
        → W.contents result.1 ≡ W.contents out) }
{
    let mut system = Machine::new(rt);
    let done = attach_file(alloc, &mut system, paths, &mut out);
    (done, out)
}

/// Prints who signed the metadata file of a path.
pub(crate) fn signers<W: Write>(
    rt: &HostRuntime,
    alloc: Global,
    file: &str,
    by: &By<'_>,
    mut out: W,
) -> (Result<u8, Failure>, W)
    ensures known { IfOk result.0 IsStatus }
    ensures told { IfOk result.0 (IsNaming by.now (W.contents out) (W.contents result.1)) }
    ensures quiet { IfErr result.0 (λ f. f ≢ Failure.Memory → f ≢ Failure.Output
        → W.contents result.1 ≡ W.contents out) }
{
    let done = print_signers(alloc, &Machine::new(rt), file, by, &mut out);
    (done, out)
}
