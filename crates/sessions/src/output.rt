//! The output of a command, as text.

use anyhow::Result;
use std::alloc::Global;

/// The output of a command.
pub struct Output {
    /// The exit status.
    pub status: u8,
    /// The bytes on standard output.
    pub out: Vec<u8>,
    /// The bytes on standard error.
    pub err: Vec<u8>,
}

impl Drop for Output {
    fn drop(self) {
        let Output { status, out, err } = self;
    }
}

impl Output {
    /// Returns the output of a command that prints nothing.
    pub fn nothing(alloc: Global) -> Output {
        Output {
            status: 0,
            out: Vec::new(alloc),
            err: Vec::new(alloc),
        }
    }

    /// Returns the output of a command that prints a text.
    pub fn printed(alloc: Global, text: String) -> Output {
        Output {
            status: 0,
            out: text.into_bytes(),
            err: Vec::new(alloc),
        }
    }

    /// Returns the output of a check: the status 0 for yes and 1 for no.
    pub fn answer(alloc: Global, is_so: bool) -> Output {
        Output {
            status: if is_so { 0 } else { 1 },
            out: Vec::new(alloc),
            err: Vec::new(alloc),
        }
    }

    /// Returns whether the two are equal in all parts.
    pub fn is(&self, other: &Output) -> bool {
        self.status == other.status && self.out == other.out && self.err == other.err
    }

    /// Returns the lines of a session: those of standard output, those of standard error, each
    /// after `! `, and a status other than 0 in brackets.
    pub(crate) fn lines(&self, alloc: Global) -> Result<Vec<String>> {
        let mut lines = Vec::new(alloc);
        push_lines(alloc, &mut lines, "", self.out.as_slice())?;
        push_lines(alloc, &mut lines, "! ", self.err.as_slice())?;
        let status = self.status;
        if status != 0 {
            lines.push(format!(in alloc; "[{status}]")?)?;
        }
        Ok(lines)
    }
}

fn push_lines(alloc: Global, lines: &mut Vec<String>, front: &str, bytes: &[u8]) -> Result<()> {
    let text = std::str::from_utf8(bytes)?;
    for line in text.lines() {
        lines.push(format!(in alloc; "{front}{line}")?)?;
    }
    if !text.is_empty() && !text.ends_with("\n") {
        lines.push(format!(in alloc; "{front}(no line feed)")?)?;
    }
    Ok(())
}
