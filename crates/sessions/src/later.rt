//! Messages of a client that are restated before they are answered.

ghost use Rattle.std.specs.Prelude.{◌≡◌, ◌↔◌, ◌⊎◌, [], ◌∷◌, map, false, IsTrue, IfNone, IfSome, IfOk, OnOk, Some};
ghost use Rattle.httpmsg.specs.Stream.{Message as MessageData};
ghost use Rattle.requests.specs.declared.refusal.Refusal.TheVariants as refusal;
ghost use Rattle.routes.specs.ReplyBytes.{closing_bytes};
ghost use Rattle.dialect.specs.ReadingOf.{reading_seen};
ghost use Rattle.dialect.specs.Restated.{constant, constant_of, restated};
ghost use Rattle.sessions.specs.Restating.{first_constant, asking, behind, HandsOn, LacksRoom, Gives};
ghost use Rattle.sessions.specs.State.{Closes};

use crate::session::{Session, Tools};
use dialect::{Reading, read};
use httpmsg::{Message, Sheet};
use names::Format;
use routes::Routes;
use std::alloc::{AllocError, Global};
use std::collections::VecDeque;
use std::marker::Model;

// The constant that a reading is, if it is one.
fn constant_in(reading: &Reading) -> Option<&'static str>
    ensures some { (m : MessageData) → IfSome result (λ t. reading_seen m reading.now ≡ constant t.now) }
{
    match reading {
        Reading::Constant(text) => Some(*text),
        Reading::Plain | Reading::Restated(_) => None,
    }
}

// The constant that answers a message, if one does.
fn constant_for(
    alloc: Global,
    routes: &Routes,
    format: Format,
    message: &Message,
) -> Result<Option<&'static str>, AllocError>
    ensures some { IfOk result (λ text. IfSome text (λ t. constant_of format message.now ≡ Some t.now)) }
{
    let reading = read(alloc, routes, format, message)?;
    Ok(constant_in(&reading))
}

/// Messages of a client that were cut, and that its session does not have yet, oldest first, and the format of the store that they ask.
#[derive(Drop)]
pub struct Later {
    format: Format,
    messages: VecDeque<Message>,
}

impl Model for Later {
    ghost use Rattle.sessions.specs.Restating.{Queue};

    ghost Value = { Queue };

    ghost view = { λ l. record { format = l.format; messages = l.messages.items } };
}

impl Later {
    /// No messages, of a client of a store of this format. It takes no memory.
    pub fn new(alloc: Global, format: Format) -> Later
        ensures { result ≡ record { format = format; messages = [] } }
    {
        Later {
            format,
            messages: VecDeque::new(alloc),
        }
    }

    /// Whether there is none.
    pub fn is_empty(&self) -> bool
        ensures { IsTrue result ↔ (self.now.messages ≡ []) }
    {
        self.messages.is_empty()
    }

    /// Takes the messages that wait in a session.
    pub fn take_from(&mut self, session: &mut Session)
        requires empty { self.old.messages ≡ [] }
        ensures taken { self.new ≡ record self.old { messages = session.old.waiting } }
        ensures session { session.new ≡ record session.old { waiting = [] } }
    {
        session.swap_waiting(&mut self.messages);
    }

    // Takes the first message, where a constant answers it, with the constant's text.
    fn take_constant(
        &mut self,
        alloc: Global,
        routes: &Routes,
    ) -> Result<Option<(Message, &'static str)>, AllocError>
        ensures format { self.new.format ≡ self.old.format }
        ensures some { IfOk result (λ taken. IfSome taken (λ t. (self.old.messages ≡ t.0 ∷ self.new.messages)
            × (constant_of self.old.format t.0 ≡ Some t.1.now))) }
        ensures none { IfOk result (λ taken. IfNone taken (self.new ≡ self.old)) }
    {
        let Some(text) = self.first_constant(alloc, routes)? else {
            return Ok(None);
        };
        let Some(message) = self.messages.pop_front() else {
            return Ok(None);
        };
        Ok(Some((message, text)))
    }

    // The constant that answers the first message, if there is one and one does.
    fn first_constant(
        &self,
        alloc: Global,
        routes: &Routes,
    ) -> Result<Option<&'static str>, AllocError>
        ensures some { IfOk result (λ text. IfSome text (λ t. first_constant self.now.format self.now.messages ≡ Some t.now)) }
    {
        match self.messages.front() {
            Some(message) => constant_for(alloc, routes, self.format, message),
            None => Ok(None),
        }
    }

    // Takes the messages before the first that a constant answers, each restated.
    fn take_asking(&mut self, alloc: Global, routes: &Routes) -> Result<Vec<Message>, AllocError>
        ensures format { self.new.format ≡ self.old.format }
        ensures taken { IfOk result (λ taken. taken.items ≡ map (restated self.old.format) (asking self.old.format self.old.messages)) }
        ensures rest { OnOk result (self.new.messages ≡ behind self.old.format self.old.messages) }
    {
        let mut taken = Vec::new(alloc);
        while let Some(message) = self.messages.front() {
            let reading = read(alloc, routes, self.format, message)?;
            let other = match reading {
                Reading::Constant(_) => return Ok(taken),
                Reading::Plain => None,
                Reading::Restated(other) => Some(other),
            };
            if let Some(message) = self.messages.pop_front() {
                taken.push(other.unwrap_or(message))?;
            }
        }
        Ok(taken)
    }

    // Ends the session: memory was refused to its messages.
    fn give_up(&mut self, sheet: &mut Sheet, session: &mut Session)
        ensures none { self.new ≡ record self.old { messages = [] } }
        ensures closes { Closes session.old session.new (closing_bytes false refusal.OutOfMemory) }
        ensures progress { session.new.progress ≡ session.old.progress }
    {
        self.messages.clear();
        session.end_without_memory(sheet);
    }

    /// Gives a session, in which no message waits, the next of its messages, each restated, up to the first that a constant answers. Where that is the
    /// first of all, it is answered. Where memory is refused the session ends. It gives the message that was answered.
    #[tactic(auto, using(crate::proofs::Asking::answers_first, crate::proofs::Asking::gives_up))]
    pub fn give(
        &mut self,
        alloc: Global,
        tools: &mut Tools,
        session: &mut Session,
    ) -> Option<Message>
        requires idle { session.old.waiting ≡ [] }
        ensures format { self.new.format ≡ self.old.format }
        ensures gives { Gives self.old.format self.old.messages self.new.messages session.old session.new result }
    {
        match self.take_constant(alloc, &tools.routes) {
            Ok(Some((message, text))) => {
                session.put_constant(&message, text);
                Some(message)
            }
            Ok(None) => {
                self.hand_on(alloc, tools, session);
                None
            }
            Err(AllocError) => {
                self.give_up(&mut tools.sheet, session);
                None
            }
        }
    }

    // Gives a session, in which no message waits, those before the first that a constant answers. Where memory is refused the session ends.
    fn hand_on(&mut self, alloc: Global, tools: &mut Tools, session: &mut Session)
        requires idle { session.old.waiting ≡ [] }
        ensures format { self.new.format ≡ self.old.format }
        ensures handed { HandsOn self.old.format self.old.messages self.new.messages session.old session.new
            ⊎ LacksRoom self.old.messages self.new.messages session.old session.new }
    {
        match self.take_asking(alloc, &tools.routes) {
            Ok(messages) => session.let_wait(messages),
            Err(AllocError) => self.give_up(&mut tools.sheet, session),
        }
    }
}
