//! A text that is gathered piece by piece.

use crate::wrong::{Wrong, compared};
use std::alloc::Global;
use std::fmt::Display;

/// A text that is gathered piece by piece. Whether something was wrong, and what it was first, is asked once, at its end.
#[derive(Drop)]
pub struct TextBuilder {
    text: String,
    // what was wrong first
    wrong: Option<Wrong>,
}

impl TextBuilder {
    /// A text with nothing in it.
    pub fn new(alloc: Global) -> TextBuilder {
        TextBuilder {
            text: String::new(alloc),
            wrong: None,
        }
    }

    /// Keeps why there is no text, unless something was wrong before.
    pub fn fail(&mut self, wrong: Wrong) {
        if self.wrong.is_none() {
            self.wrong = Some(wrong);
        }
    }

    /// Keeps what is against the text.
    pub fn refuse(&mut self, why: &'static str) {
        self.fail(Wrong::Told(why));
    }

    /// Adds a piece.
    pub fn push(&mut self, piece: &str) {
        if self.text.push_str(piece).is_err() {
            self.fail(Wrong::Memory);
        }
    }

    /// Adds a word, after a blank unless it is the first.
    pub fn word(&mut self, word: &str) {
        if !self.text.is_empty() {
            self.push(" ");
        }
        self.push(word);
    }

    /// Adds what a value shows.
    pub fn show<T: Display>(&mut self, value: &T) {
        if write!(self.text, "{value}").is_err() {
            self.fail(Wrong::Memory);
        }
    }

    /// Adds bytes in hex, two digits each, as words.
    pub fn spell(&mut self, bytes: &[u8]) {
        for byte in bytes {
            self.word("");
            if write!(self.text, "{byte:02x}").is_err() {
                self.fail(Wrong::Memory);
            }
        }
    }

    /// The whole text.
    ///
    /// # Errors
    ///
    /// What was wrong first.
    pub fn end(self) -> Result<String, Wrong> {
        let TextBuilder { text, wrong } = self;
        match wrong {
            Some(wrong) => Err(wrong),
            None => Ok(text),
        }
    }

    /// Asks that the text is the one that is wanted, which is one comparison.
    ///
    /// # Errors
    ///
    /// What was wrong first, or the text, where it is another.
    pub fn compare(self, wanted: &str) -> Result<u64, Wrong> {
        match self.end() {
            Ok(text) => compared(text, wanted),
            Err(wrong) => Err(wrong),
        }
    }
}
