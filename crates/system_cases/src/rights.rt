//! The mode of files and folders, and links.

use crate::shell::Shell;
use anyhow::Result;
use sessions::{Output, Step};
use std::fs;
use std::fs::Permissions;
use std::os::unix::fs::{PermissionsExt, symlink};

/// Sets the mode of a file or folder, as `chmod` does.
pub fn allow<T>(shell: &Shell<'_, T>, step: &Step, mode: u32) -> Result<Output> {
    fs::set_permissions(shell.rt, step.word(0)?, Permissions::from_mode(mode))?;
    Ok(Output::nothing(shell.alloc))
}

/// Returns the mode of a file or folder, in octal digits.
pub fn mode<T>(shell: &Shell<'_, T>, step: &Step) -> Result<Output> {
    let mode = fs::metadata(shell.rt, step.word(0)?)?.permissions().mode() & 0o7777;
    let text = format!(in shell.alloc; "{mode:o}\n")?;
    Ok(Output::printed(shell.alloc, text))
}

/// Makes a link to the file of the first word, with the name of the second.
pub fn link<T>(shell: &Shell<'_, T>, step: &Step) -> Result<Output> {
    symlink(shell.rt, step.word(0)?, step.word(1)?)?;
    Ok(Output::nothing(shell.alloc))
}
