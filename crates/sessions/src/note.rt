//! What is told of one answer.

ghost use Rattle.std.specs.Prelude.{◌≡◌, option_map, unwrap_or, IfSome};
ghost use Rattle.names.specs.declared.format.Format.{Format};
ghost use Rattle.requests.specs.declared.refusal.Refusal.TheVariants as refusal;
ghost use Rattle.requests.specs.Reply.{status};
ghost use Rattle.routes.specs.AnswerBytes.{CanAnswer};
ghost use Rattle.sessions.specs.Notes.{note_of, closing_note};

use crate::tally::Tally;
use httpmsg::{Message, Sheet};
use requests::{Refusal, Reply};
use routes::{write_answer, write_storage_failed};

/// What is told of an answer.
#[derive(Clone, Copy)]
pub struct Note {
    /// The status code of the reply.
    pub status: u16,
    /// How many bytes the reply has, or 2^64 - 1 where they are more.
    pub bytes: usize,
}

// The status code of the answer to a message.
fn code_of(reply: Option<&Reply>) -> u16
    ensures { result ≡ (unwrap_or (option_map (λ r. r.now) reply.entry) (status refusal.OutOfMemory)).code }
{
    match reply {
        Some(reply) => reply.code(),
        None => Refusal::OutOfMemory.code(),
    }
}

/// What is told of the answer to a message: its reply, or where there is none that memory was refused.
pub(crate) fn note_of(message: &Message, reply: Option<&Reply>, allow: Option<&'static str>) -> Note
    ensures { (format : Format) → IfSome reply.entry (λ r. CanAnswer format message.now r.now allow.entry)
        → result ≡ note_of format message.now (unwrap_or (option_map (λ r. r.now) reply.entry) (status refusal.OutOfMemory)) }
{
    let mut tally = Tally::new();
    // A tally never fails.
    let _ = write_answer(&mut tally, message, reply, allow);
    Note {
        status: code_of(reply),
        bytes: tally.bytes(),
    }
}

/// What is told of the refusal "storage failed".
pub(crate) fn note_of_failure(sheet: &mut Sheet) -> Note
    ensures { result ≡ closing_note refusal.StorageFailed }
{
    let mut tally = Tally::new();
    // A tally never fails.
    let _ = write_storage_failed(&mut tally, sheet);
    Note {
        status: Refusal::StorageFailed.code(),
        bytes: tally.bytes(),
    }
}
