//! The words of a line.

use crate::refusal::Refusal;
use lms::{Height, Width};
use std::alloc::{AllocError, Global};

/// The greatest threshold and version of metadata.
const MOST: u64 = 9_223_372_036_854_775_807;

/// The word for no keys and for no bytes.
const NONE: &str = "-";

/// The words of a line that are left, with one space between two. No word is empty.
#[derive(Drop)]
pub struct Words<'a> {
    rest: Option<&'a str>,
}

impl<'a> Words<'a> {
    /// Returns the words of the line.
    pub fn of(line: &'a str) -> Words<'a> {
        Words { rest: Some(line) }
    }

    /// Reads the next word, which must be there and not empty.
    pub fn word(&mut self) -> Result<&'a str, Refusal> {
        let rest = self.rest.ok_or(Refusal::Line)?;
        let (word, rest) = match rest.split_once(' ') {
            Some((word, rest)) => (word, Some(rest)),
            None => (rest, None),
        };
        self.rest = rest;
        if word.is_empty() {
            return Err(Refusal::Line);
        }
        Ok(word)
    }

    /// Fails if a word is left.
    pub fn end(&self) -> Result<(), Refusal> {
        match self.rest {
            Some(_) => Err(Refusal::Line),
            None => Ok(()),
        }
    }

    /// Reads a threshold or a version: 1 to 9223372036854775807 in decimal digits.
    pub fn whole(&mut self) -> Result<u64, Refusal> {
        match decimal(self.word()?) {
            Some(number) if 1 <= number && number <= MOST => Ok(number),
            _ => Err(Refusal::Line),
        }
    }

    /// Reads a key byte: 0 to 255 in decimal digits.
    pub fn key_byte(&mut self) -> Result<u8, Refusal> {
        byte(self.word()?)
    }

    /// Reads the height of a key: 5, 10 or 15.
    pub fn height(&mut self) -> Result<Height, Refusal> {
        match self.word()? {
            "5" => Ok(Height::H5),
            "10" => Ok(Height::H10),
            "15" => Ok(Height::H15),
            _ => Err(Refusal::Line),
        }
    }

    /// Reads the width of a key's digits, which may be the last word: 4 or 8, and 8 if there is
    /// none.
    pub fn width(&mut self) -> Result<Width, Refusal> {
        if self.rest.is_none() {
            return Ok(Width::W8);
        }
        match self.word()? {
            "4" => Ok(Width::W4),
            "8" => Ok(Width::W8),
            _ => Err(Refusal::Line),
        }
    }

    /// Reads the number of bits of a digest that determine a bin: 1 to 32 in decimal digits.
    pub fn bits(&mut self) -> Result<u32, Refusal> {
        match decimal(self.word()?) {
            Some(number) if 1 <= number && number <= 32 => Ok(number as u32),
            _ => Err(Refusal::Line),
        }
    }

    /// Reads key bytes joined by `,`, or `-` for none.
    pub fn keys(&mut self, alloc: Global) -> Result<Vec<u8>, Refusal> {
        let word = self.word()?;
        let mut keys = Vec::new(alloc);
        if word == NONE {
            return Ok(keys);
        }
        for part in word.split(',') {
            keys.push(byte(part)?)?;
        }
        Ok(keys)
    }

    /// Reads the bytes of a word in hexadecimal, in either case, or `-` for none.
    pub fn bytes(&mut self, alloc: Global) -> Result<Vec<u8>, Refusal> {
        let word = self.word()?;
        if word == NONE {
            return Ok(Vec::new(alloc));
        }
        match hex::decode(alloc, word) {
            Ok(bytes) => Ok(bytes),
            Err(hex::FromHexError::OutOfMemory) => Err(Refusal::Memory(AllocError)),
            Err(_) => Err(Refusal::Line),
        }
    }

    /// Returns true for the word `yes`, false for the word `no`.
    pub fn choice(&mut self, yes: &str, no: &str) -> Result<bool, Refusal> {
        match self.word()? {
            word if word == yes => Ok(true),
            word if word == no => Ok(false),
            _ => Err(Refusal::Line),
        }
    }

    /// Reads a role's name, which has no `/`.
    pub fn role(&mut self) -> Result<&'a str, Refusal> {
        let word = self.word()?;
        if word.contains('/') {
            return Err(Refusal::Line);
        }
        Ok(word)
    }

    /// Reads a target's path, none of whose parts is empty, `.` or `..`.
    pub fn path(&mut self) -> Result<&'a str, Refusal> {
        let word = self.word()?;
        if word.split('/').all(is_part) {
            Ok(word)
        } else {
            Err(Refusal::Line)
        }
    }
}

/// Returns whether a path may have the part.
fn is_part(part: &str) -> bool {
    !matches!(part, "" | "." | "..")
}

/// Returns the number that decimal digits encode.
fn decimal(word: &str) -> Option<u64> {
    if word.bytes().all(|digit| digit.is_ascii_digit()) {
        word.parse().ok()
    } else {
        None
    }
}

fn byte(word: &str) -> Result<u8, Refusal> {
    let number = decimal(word).ok_or(Refusal::Line)?;
    u8::try_from(number).ok().ok_or(Refusal::Line)
}
