//! Outputs that fail.

use crate::program::status;
use anyhow::Result;
use sessions::{Output, Step};
use std::io::{self, ErrorKind, Write};
use std::sync::Wait;
use std::thread::Threads;
use system_cases::Shell;

/// A writer that takes a number of bytes, after which writes and flushes fail.
#[derive(Drop)]
struct Narrow {
    room: usize,
}

impl Write for Narrow {
    fn write(&mut self, bytes: &[u8]) -> io::Result<usize> {
        self.flush()?;
        let taken = self.room.min(bytes.len());
        self.room -= taken;
        Ok(taken)
    }

    fn flush(&mut self) -> io::Result<()> {
        if self.room == 0 {
            return Err(io::Error::from(ErrorKind::BrokenPipe));
        }
        Ok(())
    }
}

/// Returns the writer of the number of bytes that is the step's first word.
fn writer_of(step: &Step) -> Result<Narrow> {
    let room = step.word(0)?.parse::<usize>()?;
    Ok(Narrow { room })
}

/// Runs the command line with a standard output that takes a number of bytes.
pub fn with_narrow_output<T: Threads + Wait + Sync>(
    shell: &Shell<'_, T>,
    step: &Step,
) -> Result<Output> {
    let mut out = writer_of(step)?;
    let mut output = Output::nothing(shell.alloc);
    output.status = status(shell, step.words_behind(1), &mut out, &mut output.err);
    Ok(output)
}

/// Runs the command line with a standard error that takes a number of bytes.
pub fn with_narrow_error<T: Threads + Wait + Sync>(
    shell: &Shell<'_, T>,
    step: &Step,
) -> Result<Output> {
    let mut err = writer_of(step)?;
    let mut output = Output::nothing(shell.alloc);
    output.status = status(shell, step.words_behind(1), &mut output.out, &mut err);
    Ok(output)
}
