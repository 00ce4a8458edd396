//! What is served to one client.

ghost use Rattle.std.specs.Prelude.{◌≡◌, ◌≤◌, ◌++◌, ◌↔◌, ℕ, List, [], length, drop, true, false, None, Some, IsTrue, IfNone, IfSome, option_map};
ghost use Rattle.std.specs.Option.{option_to_list};
ghost use Rattle.names.specs.declared.format.Format.{Format};
ghost use Rattle.requests.specs.declared.refusal.Refusal.TheVariants as refusal;
ghost use Rattle.routes.specs.AnswerBytes.{answer_bytes, CanAnswer};
ghost use Rattle.routes.specs.ReplyBytes.{closing_bytes, end_bytes};
ghost use Rattle.httpmsg.specs.Stream.{Message as MessageData, IsCut};
ghost use Rattle.httpmsg.specs.declared.head.BrokenMessage.{BrokenMessage as BrokenMessageData};
ghost use Rattle.httpmsg.specs.Cut.{end_of};
ghost use Rattle.sessions.specs.Notes.{listed, closing_note};
ghost use Rattle.sessions.specs.State.{is_open, is_lost, GoesOnWith, Closes};
ghost use Rattle.sessions.specs.Pieces.{TakesPiece, EndsInput};
ghost use Rattle.dialect.specs.ConstantBytes.{constant_bytes};

use crate::note::{Note, note_of_failure};
use crate::notes::Notes;
use crate::outbox::Outbox;
use dialect::write_constant;
use httpmsg::{BrokenMessage, CutFault, Cutter, End, HeadRoom, Message, Sheet, StreamFault};
use requests::Reply;
use routes::{Routes, write_answer, write_fault, write_no_more, write_storage_failed};
use std::alloc::{AllocError, Global};
use std::collections::VecDeque;
use std::marker::Model;
use std::mem::swap;

/// How far a session is.
#[derive(Clone, Copy)]
pub(crate) enum Phase {
    /// Bytes are taken of the client, and its messages are answered.
    Open,
    /// All that is to be written waits to be sent, or was.
    Over,
    /// Memory was refused to what is to be sent: a beginning of it waits.
    Lost,
}

/// What sessions need by turns: room for the fields of a head, a sheet for a reply, the table of the paths, and what is told of answers.
#[derive(Drop)]
pub struct Tools {
    pub(crate) room: HeadRoom,
    pub(crate) sheet: Sheet,
    pub(crate) routes: Routes,
    pub(crate) notes: Notes,
}

impl Tools {
    /// The tools. All their memory, some 100 KB, is taken here.
    pub fn new(alloc: Global) -> Result<Tools, AllocError> {
        Ok(Tools {
            room: HeadRoom::new(alloc)?,
            sheet: Sheet::new(alloc)?,
            routes: Routes::new(alloc)?,
            notes: Notes::new(alloc)?,
        })
    }

    /// From now on a note is kept of each answer of a batch.
    pub fn keep_notes(&mut self)
        ensures { self.new.notes.is_kept ≡ true }
    {
        self.notes.keep();
    }

    /// What is told of the answers to the messages of the last batch, in their order, where notes are kept. Where the store failed, those to
    /// which it failed have none.
    pub fn notes(&self) -> &[Note]
        ensures { result.now ≡ listed self.now.notes }
    {
        self.notes.list()
    }

    /// What is told of the refusal of a message at which the store failed.
    pub fn note_of_failure(&mut self) -> Note
        ensures { result ≡ closing_note refusal.StorageFailed }
    {
        note_of_failure(&mut self.sheet)
    }
}

/// One client's: how far its bytes are cut, the messages that wait to be answered, and the bytes that wait to be sent.
#[derive(Drop)]
pub struct Session {
    cutter: Cutter,
    waiting: VecDeque<Message>,
    outbox: Outbox,
    phase: Phase,
}

impl Model for Session {
    ghost use Rattle.sessions.specs.State.{State};
    ghost use Rattle.sessions.specs.Outbox.{unsent};

    ghost Value = { State };

    ghost view = { λ s. record { progress = s.cutter; waiting = s.waiting.items; unsent = unsent s.outbox; phase = s.phase } };
}

impl Session {
    /// A session of a client that sent nothing. It takes no memory.
    pub fn new(alloc: Global) -> Session
        ensures { result ≡ record { progress = record { pending = []; end = None }; waiting = []; unsent = []; phase = Phase.Open } }
    {
        Session {
            cutter: Cutter::new(alloc),
            waiting: VecDeque::new(alloc),
            outbox: Outbox::new(alloc),
            phase: Phase::Open,
        }
    }

    /// Whether bytes are taken of the client.
    pub fn is_open(&self) -> bool
        ensures { result ≡ is_open self.now.phase }
    {
        matches!(self.phase, Phase::Open)
    }

    /// Whether memory was refused to what is to be sent. Such a session is let go: what waits to be sent ends inside a reply.
    pub fn is_lost(&self) -> bool
        ensures { result ≡ is_lost self.now.phase }
    {
        matches!(self.phase, Phase::Lost)
    }

    /// Whether no message waits to be answered.
    pub fn is_idle(&self) -> bool
        ensures { IsTrue result ↔ (self.now.waiting ≡ []) }
    {
        self.waiting.is_empty()
    }

    /// Whether a message has begun that is not whole, or has a fault.
    pub fn has_begun(&self) -> bool
        ensures { IsTrue result ↔ ((b : BrokenMessageData) × (end_of self.now.progress ≡ End.Broken b)) }
    {
        self.cutter.ending().is_err()
    }

    /// The bytes that wait to be sent.
    pub fn rest(&self) -> &[u8]
        ensures { result.now ≡ self.now.unsent }
    {
        self.outbox.rest()
    }

    /// So many of the bytes that wait were sent.
    pub fn sent(&mut self, alloc: Global, count: usize)
        requires { count ≤ length self.old.unsent }
        ensures { self.new ≡ record self.old { unsent = drop count self.old.unsent } }
    {
        self.outbox.take(alloc, count);
    }

    /// Takes the first of the messages that wait.
    pub(crate) fn next_message(&mut self) -> Option<Message>
        ensures took { self.old ≡ record self.new { waiting = option_to_list result ++ self.new.waiting } }
        ensures none { IfNone result (self.old.waiting ≡ []) }
    {
        self.waiting.pop_front()
    }

    /// Puts the answer to a message after what waits to be sent: its reply, or where there is none that memory was refused.
    pub(crate) fn put(
        &mut self,
        message: &Message,
        reply: Option<&Reply>,
        allow: Option<&'static str>,
    )
        ensures { (format : Format) → IfSome reply.entry (λ r. CanAnswer format message.now r.now allow.entry)
            → GoesOnWith self.old self.new (answer_bytes format message.now (option_map (λ r. r.now) reply.entry)) }
    {
        if self.is_lost() {
            return;
        }
        match write_answer(&mut self.outbox, message, reply, allow) {
            Ok(()) => {}
            Err(_) => self.phase = Phase::Lost,
        }
    }

    /// Puts a constant text, as the reply to a message, after what waits to be sent.
    pub(crate) fn put_constant(&mut self, message: &Message, text: &str)
        ensures { GoesOnWith self.old self.new (constant_bytes message.now text.now) }
    {
        if self.is_lost() {
            return;
        }
        match write_constant(&mut self.outbox, message, text) {
            Ok(()) => {}
            Err(_) => self.phase = Phase::Lost,
        }
    }

    /// Gives the messages that wait, and takes others.
    pub(crate) fn swap_waiting(&mut self, messages: &mut VecDeque<Message>)
        ensures given { messages.new.items ≡ self.old.waiting }
        ensures taken { self.new ≡ record self.old { waiting = messages.old.items } }
    {
        swap(&mut self.waiting, messages);
    }

    /// Lets messages wait, where none does.
    pub(crate) fn let_wait(&mut self, messages: Vec<Message>)
        ensures { self.new ≡ record self.old { waiting = messages.items } }
    {
        self.waiting = VecDeque::from_vec(messages);
    }

    /// Puts the refusal "storage failed" after what waits to be sent, after which the session is over.
    pub(crate) fn refuse(&mut self, sheet: &mut Sheet)
        ensures refused { is_open self.old.phase ≡ true → Closes self.old self.new (closing_bytes false refusal.StorageFailed) }
        ensures progress { self.new.progress ≡ self.old.progress }
        ensures over { is_open self.old.phase ≡ false → self.new ≡ self.old }
    {
        if !self.is_open() {
            return;
        }
        match write_storage_failed(&mut self.outbox, sheet) {
            Ok(()) => self.phase = Phase::Over,
            Err(_) => self.phase = Phase::Lost,
        }
    }

    // Ends the session with the reply to a message that has a fault.
    fn end_at(&mut self, sheet: &mut Sheet, broken: BrokenMessage)
        ensures closes { Closes self.old self.new (end_bytes (End.Broken broken)) }
        ensures progress { self.new.progress ≡ self.old.progress }
    {
        match write_fault(&mut self.outbox, sheet, broken) {
            Ok(()) => self.phase = Phase::Over,
            Err(_) => self.phase = Phase::Lost,
        }
    }

    /// Ends the session: memory was refused to what its client sends.
    pub(crate) fn end_without_memory(&mut self, sheet: &mut Sheet)
        ensures closes { Closes self.old self.new (closing_bytes false refusal.OutOfMemory) }
        ensures progress { self.new.progress ≡ self.old.progress }
    {
        match write_no_more(&mut self.outbox, sheet) {
            Ok(()) => self.phase = Phase::Over,
            Err(_) => self.phase = Phase::Lost,
        }
    }

    // Lets the messages of a piece wait, where there are some.
    fn put_waiting(&mut self, messages: Vec<Message>)
        ensures waits { self.new ≡ record self.old { waiting = messages.items; phase = self.new.phase } }
        ensures over { (messages.items ≡ []) → self.old.progress.end ≡ Some End.Closed → self.new.phase ≡ Phase.Over }
        ensures goes_on { ((messages.items ≡ []) → self.old.progress.end ≡ Some End.Closed → ⊥) → self.new.phase ≡ self.old.phase }
    {
        if messages.is_empty() && self.cutter.has_closed() {
            self.phase = Phase::Over;
        }
        self.waiting = VecDeque::from_vec(messages);
    }

    /// Takes a piece of what the client sends, of which no message waits. Nothing is done where the session is not open.
    ///
    /// Where a piece gave messages, an empty piece is taken once they are answered: it tells the fault that stands behind them, or that the
    /// last of them closes.
    pub fn take_piece(&mut self, alloc: Global, tools: &mut Tools, piece: &[u8])
        requires idle { self.old.waiting ≡ [] }
        ensures over { is_open self.old.phase ≡ false → self.new ≡ self.old }
        ensures piece { (read : List ℕ) (ms : List MessageData) → is_open self.old.phase ≡ true → IsCut read ms self.old.progress
            → TakesPiece read ms piece.now self.old self.new }
    {
        if !self.is_open() {
            return;
        }
        match self.cutter.feed(alloc, &mut tools.room, piece) {
            Ok(messages) => self.put_waiting(messages),
            Err(CutFault::Broken(broken)) => self.end_at(&mut tools.sheet, broken),
            Err(CutFault::Memory) => self.end_without_memory(&mut tools.sheet),
        }
    }

    /// Ends the session where the client sends no more, with the reply to a message that is not whole, if there is one. No message waits.
    /// Nothing is done where the session is not open.
    pub fn end_input(&mut self, tools: &mut Tools)
        requires idle { self.old.waiting ≡ [] }
        ensures over { is_open self.old.phase ≡ false → self.new ≡ self.old }
        ensures ends { (read : List ℕ) (ms : List MessageData) → is_open self.old.phase ≡ true → IsCut read ms self.old.progress
            → EndsInput read ms self.old self.new }
    {
        if !self.is_open() {
            return;
        }
        match self.cutter.ending() {
            Ok(()) => self.phase = Phase::Over,
            Err(broken) => self.end_at(&mut tools.sheet, broken),
        }
    }
}
