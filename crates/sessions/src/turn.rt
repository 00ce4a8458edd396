//! The messages of a batch, answered by a store.

ghost use Rattle.std.specs.Prelude.{◌≡◌, ◌<◌, ◌≤◌, All, length, take, IfOk, MatchResult};
ghost use Rattle.names.specs.declared.format.Format.{Format};
ghost use Rattle.names.specs.declared.format.Rules.{Rules};
ghost use Rattle.records.specs.Payload.{group_limit};
ghost use Rattle.decoded.specs.Standing.{View};
ghost use Rattle.durable.specs.Settled.{device_of, serves};
ghost use Rattle.api.specs.Answers.{ShowsAt, HasCauses};
ghost use Rattle.routes.specs.AnswerBytes.{CanAnswerAll};
ghost use Rattle.sessions.specs.Notes.{listed, Tells};
ghost use Rattle.sessions.specs.Turn.{answers_to, AllGain};
ghost use Rattle.sessions.specs.Refusing.{AllRefuse};
ghost use Rattle.sessions.specs.Stops.{TurnStops};

use crate::session::{Session, Tools};
use api::{ServeFault, answered_count, replies_to};
use device::Device;
use durable::Store;
use httpmsg::{Message, Sheet};
use requests::Reply;
use routes::{methods_at, route_front};
use std::alloc::Global;

// Puts the answer to each message to what its session sends.
fn deliver(
    messages: &[Message],
    places: &[usize],
    replies: &[Reply],
    allows: &[Option<&'static str>],
    sessions: &mut [Session],
)
    requires counted { length places.now ≡ length messages.now }
    requires known { All (λ place. place < length sessions.old) places.now }
    ensures { (format : Format) → CanAnswerAll format messages.now replies.now allows.now
        → AllGain sessions.old sessions.new (λ i. answers_to format i places.now messages.now replies.now) }
{
    for (index, place) in places.iter().enumerate() {
        let allow = methods_at(allows, index);
        sessions[*place].put(&messages[index], replies.get(index), allow);
    }
}

// Tells the sessions at these places that the storage failed.
fn refuse_all(sheet: &mut Sheet, places: &[usize], sessions: &mut [Session])
    requires { All (λ place. place < length sessions.old) places.now }
    ensures { AllRefuse places.now sessions.old sessions.new }
{
    for place in places {
        sessions[*place].refuse(sheet);
    }
}

// Answers messages, each of the session at its place, from the first on, at least one, and says how many. Where memory is refused to one,
// it is the last of them. Where the store fails, all their sessions are told so.
fn answer_front<D: Device>(
    alloc: Global,
    tools: &mut Tools,
    messages: &[Message],
    places: &[usize],
    sessions: &mut [Session],
    store: &mut Store<D>,
) -> Result<usize, ServeFault>
    requires some { 1 ≤ length messages.now }
    requires few { length messages.now ≤ group_limit }
    requires counted { length places.now ≡ length messages.now }
    requires known { All (λ place. place < length sessions.old) places.now }
    ensures count { IfOk result (λ count. (1 ≤ count) × (count ≤ length messages.now)) }
    ensures outcome { (rules : Rules) (v : View) → ShowsAt rules store.old v → MatchResult result
        (λ count. Tells rules store.old store.new v (take count places.now) (take count messages.now) sessions.old sessions.new
        tools.old.notes.is_kept (listed tools.old.notes) (listed tools.new.notes))
        (TurnStops rules store.old store.new v places.now messages.now sessions.old sessions.new) }
    ensures causes { HasCauses 0 0 (D.disk.failures (device_of store.old)) (D.disk.failures (device_of store.new))
        (serves store.old) (serves store.new) result }
    ensures kept { tools.new.notes.is_kept ≡ tools.old.notes.is_kept }
{
    let front = route_front(alloc, &tools.routes, store.format(), messages);
    match replies_to(alloc, &front.requests, store) {
        Ok(replies) => {
            let count = answered_count(replies.len(), messages.len());
            deliver(
                &messages[..count],
                &places[..count],
                &replies,
                &front.allows,
                sessions,
            );
            tools
                .notes
                .take(&messages[..count], &replies, &front.allows);
            Ok(count)
        }
        Err(fault) => {
            refuse_all(&mut tools.sheet, places, sessions);
            Err(fault)
        }
    }
}

/// Answers messages, each of the session at its place.
pub(crate) fn answer_all<D: Device>(
    alloc: Global,
    tools: &mut Tools,
    messages: &[Message],
    places: &[usize],
    sessions: &mut [Session],
    store: &mut Store<D>,
) -> Result<(), ServeFault>
    requires few { length messages.now ≤ group_limit }
    requires counted { length places.now ≡ length messages.now }
    requires known { All (λ place. place < length sessions.old) places.now }
    ensures outcome { (rules : Rules) (v : View) → ShowsAt rules store.old v → MatchResult result
        (λ _. Tells rules store.old store.new v places.now messages.now sessions.old sessions.new
        tools.old.notes.is_kept (listed tools.old.notes) (listed tools.new.notes))
        (TurnStops rules store.old store.new v places.now messages.now sessions.old sessions.new) }
    ensures causes { HasCauses 0 0 (D.disk.failures (device_of store.old)) (D.disk.failures (device_of store.new))
        (serves store.old) (serves store.new) result }
    ensures kept { tools.new.notes.is_kept ≡ tools.old.notes.is_kept }
{
    let mut rest = messages;
    let mut left = places;
    while !rest.is_empty() {
        match answer_front(alloc, tools, rest, left, sessions, store) {
            Ok(count) => {
                rest = &rest[count..];
                left = &left[count..];
            }
            Err(fault) => return Err(fault),
        }
    }
    Ok(())
}
