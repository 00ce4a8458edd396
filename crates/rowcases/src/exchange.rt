//! Exchanges over a connection, and questions, by their words.

use crate::sent::{compare_reply, message, short};
use cases::{Bench, Wrong, first_word, number, numbered};
use std::alloc::Global;

const MORE_WRITTEN: &str = "more was written than the lines before tell";

/// What connections are served by, and what is asked beside.
pub trait Service: Drop + Sized {
    /// A new one, for a case.
    fn new(alloc: Global) -> Result<Self, Wrong>;

    /// Serves a connection on which this was sent, and gives what is written, with its end after it: `ends WORD`.
    fn serve(&mut self, alloc: Global, sent: &str) -> Result<String, Wrong>;

    /// Answers a question, by its first word and what stands after that.
    fn answer(&mut self, alloc: Global, word: &str, rest: &str) -> Result<String, Wrong>;
}

/// A service, and what was sent to it and written by it.
#[derive(Drop)]
pub struct Exchange<S: Service> {
    service: S,
    // what was sent and is not answered yet
    sent: String,
    // what of the last answer is not compared yet
    rest: String,
}

impl<S: Service> Bench for Exchange<S> {
    fn new(alloc: Global, _file: &str) -> Result<Exchange<S>, Wrong> {
        Ok(Exchange {
            service: S::new(alloc)?,
            sent: String::new(alloc),
            rest: String::new(alloc),
        })
    }

    // A part of an exchange, or `QUESTION => ANSWER`, where no answer wants `ok`.
    fn line(&mut self, alloc: Global, line: &str) -> Result<u64, Wrong> {
        let (word, rest) = first_word(line);
        match word {
            ">" => self.send(rest, "\r\n"),
            ">|" => self.send(rest, ""),
            ">>" => self.send_message(alloc, rest),
            "<" => self.next(alloc, rest, "\r\n"),
            "<|" => self.next(alloc, rest, ""),
            "<n" => self.next(alloc, "", "\n"),
            "ends" => self.next(alloc, line, ""),
            _ => self.row(alloc, line),
        }
    }

    fn end(&self) -> Result<(), Wrong> {
        self.settle()
    }
}

impl<S: Service> Exchange<S> {
    // Asks that all that was sent is answered, and all of the answer compared.
    fn settle(&self) -> Result<(), Wrong> {
        if !self.sent.is_empty() {
            return Err(Wrong::Told("what was sent is not answered"));
        }
        if !self.rest.is_empty() {
            return Err(Wrong::Told(MORE_WRITTEN));
        }
        Ok(())
    }

    fn send(&mut self, text: &str, line_end: &str) -> Result<u64, Wrong> {
        if !self.rest.is_empty() {
            return Err(Wrong::Told(MORE_WRITTEN));
        }
        self.sent.push_str(text)?;
        self.sent.push_str(line_end)?;
        Ok(0)
    }

    fn send_message(&mut self, alloc: Global, text: &str) -> Result<u64, Wrong> {
        let message = message(alloc, text)?;
        self.send(message.as_str(), "")
    }

    // Compares what was written next.
    fn next(&mut self, alloc: Global, text: &str, line_end: &str) -> Result<u64, Wrong> {
        if !self.sent.is_empty() {
            self.rest = self.service.serve(alloc, self.sent.as_str())?;
            self.sent.clear();
        }
        let after = match self.rest.strip_prefix(text) {
            Some(rest) => rest.strip_prefix(line_end),
            None => None,
        };
        match after {
            Some(after) => {
                self.rest = cases::text(alloc, after)?;
                Ok(1)
            }
            None => Err(Wrong::Found(self.rest.clone()?)),
        }
    }

    fn row(&mut self, alloc: Global, line: &str) -> Result<u64, Wrong> {
        self.settle()?;
        let (question, wanted) = match line.split_once(" => ") {
            Some(row) => row,
            None => (line, "ok"),
        };
        match self.answer(alloc, question) {
            Ok(found) => compare_reply(alloc, found, wanted),
            Err(wrong) => Err(wrong),
        }
    }

    // Sends one message, and gives its reply.
    fn request(&mut self, alloc: Global, question: &str) -> Result<String, Wrong> {
        let sent = message(alloc, question)?;
        let answer = self.service.serve(alloc, sent.as_str());
        drop(sent);
        match answer {
            Ok(answer) => short(alloc, answer.as_str()),
            Err(wrong) => Err(wrong),
        }
    }

    // One of `times`: the reply to a message that is accepted.
    fn one_of(&mut self, alloc: Global, question: &str, number: u64) -> Result<String, Wrong> {
        let question = numbered(alloc, question, "%", number)?;
        let reply = self.request(alloc, question.as_str());
        drop(question);
        match reply {
            Ok(reply) if reply.starts_with("20") => Ok(reply),
            Ok(_) => Err(Wrong::Told("one of them is refused")),
            Err(wrong) => Err(wrong),
        }
    }

    // `times N METHOD ..`: this many of these, in which `%` stands for their number; the last answer.
    fn times(&mut self, alloc: Global, rest: &str) -> Result<String, Wrong> {
        let (count, question) = first_word(rest);
        let mut answer = String::new(alloc);
        for number in 1..=number(count)? {
            answer = self.one_of(alloc, question, number)?;
        }
        Ok(answer)
    }

    // `lines METHOD ..`: the code of the reply, and the number of line feeds in its body.
    fn lines(&mut self, alloc: Global, question: &str) -> Result<String, Wrong> {
        let reply = self.request(alloc, question)?;
        let (code, body) = first_word(reply.as_str());
        let line = format!(in alloc; "{code} {}", body.matches("\n").count());
        drop(reply);
        Ok(line?)
    }

    fn answer(&mut self, alloc: Global, question: &str) -> Result<String, Wrong> {
        let (word, rest) = first_word(question);
        // a method
        if let [b'A'..=b'Z', ..] = word.as_bytes() {
            return self.request(alloc, question);
        }
        match word {
            "times" => self.times(alloc, rest),
            "lines" => self.lines(alloc, rest),
            _ => self.service.answer(alloc, word, rest),
        }
    }
}
