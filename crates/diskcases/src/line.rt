//! A line that is answered.

use cases::{TextBuilder, Wrong, first_word, number};
use names::Format;
use std::alloc::Global;
use std::fmt::Display;

/// A line: what of it was not read yet, and its answer so far. What is wrong with it is kept, and told once, at its end.
#[derive(Drop)]
pub struct Line<'a> {
    pub rest: &'a str,
    pub answer: TextBuilder,
}

impl<'a> Line<'a> {
    /// A line of which nothing was read yet.
    pub fn new(alloc: Global, text: &'a str) -> Line<'a> {
        Line {
            rest: text,
            answer: TextBuilder::new(alloc),
        }
    }

    /// Keeps why the line fails, unless something was wrong before.
    pub fn fail(&mut self, wrong: Wrong) {
        self.answer.fail(wrong);
    }

    /// Keeps what is against the line.
    pub fn refuse(&mut self, why: &'static str) {
        self.fail(Wrong::Told(why));
    }

    /// The next word, after which the rest stands: the empty text after the last.
    pub fn word(&mut self) -> &'a str {
        let (word, rest) = first_word(self.rest);
        self.rest = rest;
        word
    }

    /// The number, below 2^64, that the next word spells in decimal digits; 0 where it spells none.
    pub fn number(&mut self) -> u64 {
        let word = self.word();
        self.number_of(word)
    }

    /// The number that a word spells; 0 where it spells none.
    pub fn number_of(&mut self, word: &str) -> u64 {
        match number(word) {
            Ok(number) => number,
            Err(wrong) => {
                self.fail(wrong);
                0
            }
        }
    }

    /// The byte that the next word spells as a number.
    pub fn byte(&mut self) -> u8 {
        match u8::try_from(self.number()) {
            Ok(byte) => byte,
            Err(_) => {
                self.refuse("a byte is below 256");
                0
            }
        }
    }

    /// How many pages the next word says.
    pub fn pages(&mut self) -> u32 {
        match u32::try_from(self.number()) {
            Ok(pages) => pages,
            Err(_) => {
                self.refuse("too many pages");
                0
            }
        }
    }

    /// The format whose number the next word says, or this one where there is none.
    pub fn format(&mut self, unsaid: Format) -> Format {
        match self.word() {
            "" => unsaid,
            "1" => Format::First,
            "2" => Format::Second,
            "3" => Format::Third,
            _ => {
                self.refuse("no such format");
                unsaid
            }
        }
    }

    /// The floor that the next word says, or that of a new store of this format where there is none.
    pub fn floor(&mut self, format: Format) -> u64 {
        match self.word() {
            "" => format.first_floor(),
            word => self.number_of(word),
        }
    }

    /// Adds what a value shows, as a word.
    pub fn show<T: Display>(&mut self, value: &T) {
        self.answer.word("");
        self.answer.show(value);
    }

    /// Adds bytes that are a text, as a word.
    pub fn say(&mut self, bytes: &[u8]) {
        self.answer
            .word(str::from_utf8(bytes).unwrap_or("other bytes"));
    }

    /// Answers `ok`, or what a fault tells.
    pub fn ended<E: Display + Drop>(&mut self, done: Result<(), E>) {
        match done {
            Ok(()) => self.answer.word("ok"),
            Err(fault) => self.answer.show(&fault),
        }
    }

    /// The answer.
    ///
    /// # Errors
    ///
    /// What was wrong first.
    pub fn end(self) -> Result<String, Wrong> {
        let Line { answer, .. } = self;
        answer.end()
    }

    /// Asks that the answer is the one that is wanted, which is one comparison.
    ///
    /// # Errors
    ///
    /// What was wrong first, or the answer, where it is another.
    pub fn compare(self, wanted: &str) -> Result<u64, Wrong> {
        let Line { answer, .. } = self;
        answer.compare(wanted)
    }
}
