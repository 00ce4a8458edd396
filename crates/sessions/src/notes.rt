//! What is told of the messages of a batch.

ghost use Rattle.std.specs.Prelude.{◌≤◌};
ghost use Rattle.std.specs.Vec.{vec_capacity};
ghost use Rattle.records.specs.Payload.{group_limit};

use crate::note::{Note, note_of};
use httpmsg::Message;
use records::GROUP_LIMIT;
use requests::Reply;
use routes::methods_at;
use std::alloc::{AllocError, Global};

/// What is told of the messages of one batch, where it is to be kept.
#[derive(Drop)]
pub(crate) struct Notes {
    is_kept: bool,
    list: Vec<Note>,
    ghost room: { group_limit ≤ vec_capacity list },
}

impl Notes {
    ghost use Rattle.std.specs.Prelude.{◌≡◌, ◌<◌, ◌+◌, ◌++◌, [], ◌∷◌, true, length};
    ghost use Rattle.names.specs.declared.format.Format.{Format};
    ghost use Rattle.routes.specs.AnswerBytes.{CanAnswerAll};
    ghost use Rattle.sessions.specs.Notes.{listed, notes_to};

    /// None, and none will be kept. Memory for those of a batch is taken here.
    pub(crate) fn new(alloc: Global) -> Result<Notes, AllocError> {
        Ok(Notes {
            is_kept: false,
            list: Vec::with_capacity(alloc, GROUP_LIMIT)?,
        })
    }

    /// From now on they are kept.
    pub(crate) fn keep(&mut self)
        ensures { self.new.is_kept ≡ true }
    {
        self.is_kept = true;
    }

    /// Forgets them.
    pub(crate) fn clear(&mut self)
        ensures none { listed self.new ≡ [] }
        ensures kept { self.new.is_kept ≡ self.old.is_kept }
    {
        self.list.clear();
    }

    /// In the order of the messages.
    pub(crate) fn list(&self) -> &[Note]
        ensures { result.now ≡ listed self.now }
    {
        &self.list
    }

    // One more, where there is room for it.
    fn add(&mut self, note: Note)
        ensures kept { self.new.is_kept ≡ self.old.is_kept }
        ensures added { length (listed self.old) < group_limit → listed self.new ≡ listed self.old ++ note ∷ [] }
    {
        if self.list.len() < GROUP_LIMIT {
            self.list.push_reserved(note);
        }
    }

    /// Takes note of the answers to messages, where notes are kept: these replies, in order, and after them that memory was refused.
    pub(crate) fn take(
        &mut self,
        messages: &[Message],
        replies: &[Reply],
        allows: &[Option<&'static str>],
    )
        ensures kept { self.new.is_kept ≡ self.old.is_kept }
        ensures told { (format : Format) → CanAnswerAll format messages.now replies.now allows.now → self.old.is_kept ≡ true
            → length (listed self.old) + length messages.now ≤ group_limit
            → listed self.new ≡ listed self.old ++ notes_to format messages.now replies.now }
    {
        if !self.is_kept {
            return;
        }
        for (index, message) in messages.iter().enumerate() {
            let allow = methods_at(allows, index);
            self.add(note_of(message, replies.get(index), allow));
        }
    }
}
