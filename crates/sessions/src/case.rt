//! The steps of a case.

use crate::line::{Line, words_of};
use anyhow::{Context, Result};
use std::alloc::Global;

/// A command with its input and its expected output.
pub struct Step {
    /// The number of the command's line in its file.
    pub(crate) line: usize,
    /// The command as it is written.
    pub(crate) command: String,
    /// The command's words, the first of which is its name.
    words: Vec<String>,
    /// The lines of its input.
    pub script: Vec<String>,
    /// The expected lines of its output.
    pub(crate) expected: Vec<String>,
}

impl Drop for Step {
    fn drop(self) {
        let Step {
            line,
            command,
            words,
            script,
            expected,
        } = self;
    }
}

impl Step {
    fn new(alloc: Global, line: usize, command: &str) -> Result<Step> {
        Ok(Step {
            line,
            command: String::from_str(alloc, command)?,
            words: words_of(alloc, command)?,
            script: Vec::new(alloc),
            expected: Vec::new(alloc),
        })
    }

    /// Returns the command's name.
    pub fn name(&self) -> Result<&str> {
        Ok(self.words.first().context("no word")?.as_str())
    }

    /// Returns the words after the name.
    pub fn words(&self) -> &[String] {
        self.words_behind(0)
    }

    /// Returns the words after the name and `words` more.
    pub fn words_behind(&self, words: usize) -> &[String] {
        self.words.get(words.saturating_add(1)..).unwrap_or(&[])
    }

    /// Returns the word at a place after the name, from 0.
    pub fn word(&self, place: usize) -> Result<&str> {
        Ok(
            self.words()
                .get(place)
                .context("a word is missing")?
                .as_str(),
        )
    }

    /// Returns the text after the name, `words` words, and a blank after each of them.
    pub fn text_behind(&self, words: usize) -> &str {
        let mut text = self.command.as_str();
        for _ in 0..=words {
            text = match text.split_once(" ") {
                Some((_, behind)) => behind,
                None => "",
            };
        }
        text
    }
}

/// Reads the steps of a case's text, in order.
pub fn steps_of(alloc: Global, text: &str) -> Result<Vec<Step>> {
    let mut steps: Vec<Step> = Vec::new(alloc);
    let mut number: usize = 0;
    for line in text.lines() {
        number = number.saturating_add(1);
        push_line(alloc, &mut steps, number, line)?;
    }
    Ok(steps)
}

/// Adds the line of that number to the steps, or to the last of them.
fn push_line(alloc: Global, steps: &mut Vec<Step>, number: usize, line: &str) -> Result<()> {
    match Line::of(line) {
        Line::Prose => Ok(()),
        Line::Command(words) => push_step(alloc, steps, number, words),
        Line::Script(text) => push_text(alloc, &mut last(steps)?.script, text),
        Line::Expected(text) => push_text(alloc, &mut last(steps)?.expected, text),
    }
}

fn push_step(alloc: Global, steps: &mut Vec<Step>, number: usize, command: &str) -> Result<()> {
    steps.push(Step::new(alloc, number, command)?)?;
    Ok(())
}

fn push_text(alloc: Global, lines: &mut Vec<String>, text: &str) -> Result<()> {
    lines.push(String::from_str(alloc, text)?)?;
    Ok(())
}

fn last(steps: &mut Vec<Step>) -> Result<&mut Step> {
    steps
        .last_mut()
        .context("a line of a session stands before its first command")
}
