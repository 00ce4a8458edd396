//! What all clients are served with, by turns.

ghost use Rattle.std.specs.Prelude.{◌≡◌, ◌<◌, [], true, length, IfOk, MatchResult};
ghost use Rattle.names.specs.declared.format.Rules.{Rules};
ghost use Rattle.decoded.specs.Standing.{View};
ghost use Rattle.durable.specs.Settled.{device_of, serves};
ghost use Rattle.api.specs.Answers.{ShowsAt, HasCauses};
ghost use Rattle.sessions.specs.Batch.{held};
ghost use Rattle.clients.specs.Serving.{AnswersGroup, StopsAtGroup};

use crate::journal::Journal;
use api::ServeFault;
use device::Device;
use durable::Store;
use sessions::{Batch, Note, Session, Tools};
use std::alloc::{AllocError, Global};

// How many bytes are read of a client at once.
const BUFFER_BYTES: usize = 8192;

// The tools of sessions, which keep notes of replies where there is a log.
fn tools(alloc: Global, is_logged: bool) -> Result<Tools, AllocError>
    ensures { IfOk result (λ tools. is_logged ≡ true → tools.notes.is_kept ≡ true) }
{
    let mut tools = Tools::new(alloc)?;
    if is_logged {
        tools.keep_notes();
    }
    Ok(tools)
}

// Copies places. There is room for those of one batch, so none is left out.
fn copy_places(copied: &mut Vec<usize>, places: &[usize]) {
    copied.clear();
    let _ = copied.extend_from_slice(places);
}

/// What all clients are served with: the tools of sessions, a batch, which is empty between turns, a buffer, and the lines of a log.
#[derive(Drop)]
pub(crate) struct Desk {
    pub(crate) tools: Tools,
    pub(crate) buffer: Vec<u8>,
    pub(crate) journal: Journal,
    batch: Batch,
    // The place that the next batch begins with.
    first: usize,
    // The places whose messages were answered last.
    answered: Vec<usize>,
    ghost empty: { held batch ≡ [] },
    ghost room: { 0 < length buffer.items },
}

impl Desk {
    /// All its memory is taken here, but that for lines of a log.
    pub(crate) fn new(alloc: Global, is_logged: bool) -> Result<Desk, AllocError> {
        Ok(Desk {
            tools: tools(alloc, is_logged)?,
            buffer: vec![in alloc; 0; BUFFER_BYTES]?,
            journal: Journal::new(alloc, is_logged),
            batch: Batch::new(alloc)?,
            first: 0,
            answered: Vec::with_capacity(alloc, 64)?,
        })
    }

    /// The place of one of the messages that were answered last.
    pub(crate) fn answered_at(&self, index: usize) -> Option<usize> {
        self.answered.get(index).copied()
    }

    /// How many messages were answered last.
    pub(crate) fn answered_count(&self) -> usize {
        self.answered.len()
    }

    /// Whether there were such messages.
    pub(crate) fn has_answered(&self) -> bool {
        !self.answered.is_empty()
    }

    // What is told of the reply to one of the messages that were answered last. Where the store failed, a session is told so once, at the first
    // of its messages that it failed to.
    fn note_at(&mut self, index: usize, place: usize) -> Option<Note>
        ensures first { self.new.first ≡ self.old.first }
    {
        let answered = self.tools.notes().len();
        if index < answered {
            return self.tools.notes().get(index).copied();
        }
        for before in answered..index {
            if self.answered_at(before) == Some(place) {
                return None;
            }
        }
        Some(self.tools.note_of_failure())
    }

    /// Tells in the log of one of the messages that were answered last, and of its reply, which stands in what its session sends since this
    /// many microseconds after the message was read.
    pub(crate) fn tell(&mut self, alloc: Global, index: usize, peer: &str, microseconds: u64)
        ensures first { self.new.first ≡ self.old.first }
    {
        let Some(place) = self.answered_at(index) else {
            return;
        };
        let Some(note) = self.note_at(index, place) else {
            return;
        };
        if let Some(message) = self.batch.answered().get(index) {
            self.journal
                .tell_answered(alloc, peer, message, note, microseconds);
        }
    }

    /// Forgets the messages that were answered last.
    pub(crate) fn forget(&mut self)
        ensures first { self.new.first ≡ self.old.first }
    {
        self.batch.forget();
    }

    /// Takes messages that wait in sessions, by turns, and has the store answer them as one group. Each reply is put to what its session sends.
    pub(crate) fn answer<D: Device>(
        &mut self,
        alloc: Global,
        sessions: &mut [Session],
        store: &mut Store<D>,
    ) -> Result<(), ServeFault>
        ensures outcome { (rules : Rules) (v : View) → ShowsAt rules store.old v → MatchResult result
            (λ _. AnswersGroup rules self.old.first self.new.first store.old store.new v sessions.old sessions.new)
            (StopsAtGroup rules self.old.first self.new.first store.old store.new v sessions.old sessions.new) }
        ensures causes { HasCauses 0 0 (D.disk.failures (device_of store.old)) (D.disk.failures (device_of store.new))
            (serves store.old) (serves store.new) result }
    {
        self.first = self.batch.gather(sessions, self.first);
        copy_places(&mut self.answered, self.batch.places());
        self.batch.answer(alloc, &mut self.tools, sessions, store)
    }
}
