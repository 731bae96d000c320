//! The program's failures, with the exit status and the error line of each.

ghost use Rattle.std.specs.Prelude.{◌≡◌, ◌≢◌, ◌↔◌, ◌⊎◌, ℕ, true, OnOk};
ghost use Rattle.std.specs.Io.KnownBytes.{Appends};
ghost use Rattle.failure.specs.Failures.{is_callers, failure_text, failure_word};
ghost use Rattle.std.specs.IoError.{error_kind};
ghost use Rattle.failure.specs.declared.failure.Failure.TheVariants as failure;
ghost use Rattle.copies.specs.declared.fault.CopyFault.TheVariants as copy;
ghost use Rattle.folder.specs.declared.files.LoadFault.TheVariants as fault;
ghost use Rattle.rolechain.specs.declared.fault.StateFault.TheVariants as state;
ghost use Rattle.seals.specs.declared.fault.MakeFault.TheVariants as made;

use cjson::NoMemory;
use copies::CopyFault;
use folder::LoadFault;
use rolechain::StateFault;
use seals::MakeFault;
use std::alloc::{AllocError, AllocFailed};
use std::io::{self, ErrorKind, Write};
use thiserror::Error;

/// Why a run ends early. [`tell_failure`] prints the text after `tufcheck: `.
#[derive(Clone, Copy, Debug, PartialEq, Eq, Error)]
pub enum Failure {
    /// An argument isn't UTF-8, unknown or out of its range, or a listed path is empty or isn't
    /// UTF-8.
    #[error("a word of the command line isn't known")]
    Words,
    /// The text of `--now` or `--before` hasn't the form of `expires`.
    #[error("the text of the moment isn't of its form")]
    Now,
    /// The state file can't be read, or isn't one.
    #[error("the state file can't be read, or isn't one")]
    State,
    /// The script is invalid at this line, counted from 1.
    #[error("the script can't be followed at line {0}")]
    Script(usize),
    /// The root file, the script or the file of `--paths-from` can't be read, or the script isn't
    /// UTF-8.
    #[error("the root file or the script can't be read")]
    Input,
    /// A folder, or a file in it, can't be read, or a name in it isn't UTF-8.
    #[error("a folder can't be read")]
    Folder,
    /// The clock can't be read, or is before 1970 or past the year 9999.
    #[error("the clock can't be read")]
    Clock,
    /// The state or the lines can't be written.
    #[error("the state or the lines can't be written")]
    Output,
    /// Out of memory.
    #[error("out of memory")]
    Memory,
}

impl Failure {
    /// Returns the exit status: 3 for a usage error, 4 for a system error.
    pub fn status(self) -> u8
        ensures caller { (result ≡ 3) ↔ (is_callers self ≡ true) }
        ensures known { (result ≡ 3) ⊎ (result ≡ 4) }
    {
        match self {
            Failure::Words | Failure::Now | Failure::State | Failure::Script(_) => 3,
            Failure::Input | Failure::Folder | Failure::Clock | Failure::Output | Failure::Memory =>
                4,
        }
    }
}

impl From<AllocError> for Failure {
    ghost from_gives = { λ _ f. f ≡ failure.Memory };

    fn from(_error: AllocError) -> Failure {
        Failure::Memory
    }
}

impl<T: Drop> From<AllocFailed<T>> for Failure {
    ghost from_gives = { λ _ f. f ≡ failure.Memory };

    fn from(_error: AllocFailed<T>) -> Failure {
        Failure::Memory
    }
}

impl From<NoMemory> for Failure {
    ghost from_gives = { λ _ f. f ≡ failure.Memory };

    fn from(_error: NoMemory) -> Failure {
        Failure::Memory
    }
}

impl From<StateFault> for Failure {
    ghost from_gives = { λ e f. (e ≡ state.NoMemory → f ≡ failure.Memory)
        × (e ≢ state.NoMemory → f ≡ failure.State) };

    fn from(error: StateFault) -> Failure {
        match error {
            StateFault::TooLong | StateFault::Malformed => Failure::State,
            StateFault::NoMemory => Failure::Memory,
        }
    }
}

impl From<MakeFault> for Failure {
    ghost from_gives = { λ e f. ((line : ℕ) → e ≡ made.Script line → f ≡ failure.Script line)
        × (e ≡ made.Used → f ≡ failure.Memory) × (e ≡ made.NoMemory → f ≡ failure.Memory) };

    fn from(error: MakeFault) -> Failure {
        match error {
            MakeFault::Script(line) => Failure::Script(line),
            MakeFault::Used | MakeFault::NoMemory => Failure::Memory,
        }
    }
}

impl From<LoadFault> for Failure {
    ghost from_gives = { λ e f. (e ≡ fault.Folder → f ≡ failure.Folder)
        × (e ≡ fault.NoMemory → f ≡ failure.Memory) };

    fn from(error: LoadFault) -> Failure {
        match error {
            LoadFault::Folder => Failure::Folder,
            LoadFault::NoMemory => Failure::Memory,
        }
    }
}

impl From<CopyFault> for Failure {
    ghost from_gives = { λ e f. (e ≡ copy.Folder → f ≡ failure.Folder)
        × (e ≡ copy.Output → f ≡ failure.Output) × (e ≡ copy.NoMemory → f ≡ failure.Memory) };

    fn from(error: CopyFault) -> Failure {
        match error {
            CopyFault::Folder => Failure::Folder,
            CopyFault::Output => Failure::Output,
            CopyFault::NoMemory => Failure::Memory,
        }
    }
}

/// Returns the failure for an error of a file: `Memory` if it was out of memory, else `other`.
pub fn of_io(error: &io::Error, other: Failure) -> Failure
    ensures memory { error_kind error.now ≡ ErrorKind.OutOfMemory → result ≡ Failure.Memory }
    ensures other { error_kind error.now ≢ ErrorKind.OutOfMemory → result ≡ other }
    ensures either { (result ≡ Failure.Memory) ⊎ (result ≡ other) }
{
    if error.kind() == ErrorKind::OutOfMemory {
        Failure::Memory
    } else {
        other
    }
}

/// Prints the failure's line, `tufcheck: ` and its text. Does not allocate. If the contract tracks
/// the content of `err`, this line and nothing else was printed.
pub fn tell_failure<E: Write>(failure: Failure, err: &mut E) -> io::Result<()>
    ensures line { OnOk result (Appends (E.contents err.old) (E.contents err.new)
        (failure_text failure)) }
{
    match failure {
        Failure::Script(line) => writeln!(err, "tufcheck: script {line}"),
        _ => {
            let text = failure_name(failure);
            writeln!(err, "tufcheck: {text}")
        }
    }
}

/// Returns the text of a failure, without the line of a script.
fn failure_name(failure: Failure) -> &'static str
    ensures text { result.now ≡ failure_word failure }
{
    match failure {
        Failure::Words => "words",
        Failure::Now => "now",
        Failure::State => "state file",
        Failure::Script(_) => "script",
        Failure::Input => "input",
        Failure::Folder => "folder",
        Failure::Clock => "clock",
        Failure::Output => "output",
        Failure::Memory => "memory",
    }
}
