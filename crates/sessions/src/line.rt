//! The lines of a case, and their words.

use anyhow::Result;
use std::alloc::Global;

/// The kind of a line of a case.
#[derive(Clone, Copy)]
pub enum Line<'a> {
    /// A comment for the reader.
    Prose,
    /// The words of a command.
    Command(&'a str),
    /// A line of the command's input.
    Script(&'a str),
    /// A line of the expected output.
    Expected(&'a str),
}

impl<'a> Line<'a> {
    /// Returns the kind of the line: two blanks in front make it one of the session.
    pub fn of(text: &'a str) -> Line<'a> {
        let Some(inner) = text.strip_prefix("  ") else {
            return Line::Prose;
        };
        if let Some(words) = inner.strip_prefix("$ ") {
            return Line::Command(words);
        }
        if inner == ">" {
            return Line::Script("");
        }
        match inner.strip_prefix("> ") {
            Some(script) => Line::Script(script),
            None => Line::Expected(inner),
        }
    }
}

/// Returns the words of a line. `""` is a word with no character.
pub fn words_of(alloc: Global, line: &str) -> Result<Vec<String>> {
    let mut words = Vec::new(alloc);
    for word in line.split_whitespace() {
        let word = if word == "\"\"" { "" } else { word };
        words.push(String::from_str(alloc, word)?)?;
    }
    Ok(words)
}

/// Returns the text of the lines, joined by line feeds.
pub fn joined(alloc: Global, lines: &[String]) -> Result<String> {
    let mut text = String::new(alloc);
    let mut is_first = true;
    for line in lines {
        if !is_first {
            text.push('\n')?;
        }
        is_first = false;
        text.push_str(line.as_str())?;
    }
    Ok(text)
}
