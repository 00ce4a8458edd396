//! The words of a line, one after the other.

use crate::words::first_word;
use crate::wrong::{Wrong, wanted};

/// The words of a line, one after the other. Whether each number was one is asked once, at the end.
#[derive(Drop)]
pub struct WordReader<'a> {
    rest: &'a str,
    // whether a word is no number that should be one
    has_failed: bool,
}

impl<'a> WordReader<'a> {
    /// The words of a line, parted by blanks.
    pub fn new(line: &'a str) -> WordReader<'a> {
        WordReader {
            rest: line,
            has_failed: false,
        }
    }

    /// The next word: the empty text after the last.
    pub fn word(&mut self) -> &'a str {
        let (word, rest) = first_word(self.rest);
        self.rest = rest;
        word
    }

    /// The number, below 2^64, that the next word spells in decimal digits.
    pub fn number(&mut self) -> u64 {
        match self.word().parse::<u64>() {
            Ok(number) => number,
            Err(_) => {
                self.has_failed = true;
                0
            }
        }
    }

    /// What stands after the words so far.
    pub fn rest(&self) -> &'a str {
        self.rest
    }

    /// Asks that each number was one.
    ///
    /// # Errors
    ///
    /// Where a word was none.
    pub fn end(&self) -> Result<(), Wrong> {
        wanted(!self.has_failed, "no number")
    }
}
