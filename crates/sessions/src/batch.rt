//! The messages of sessions that are answered together.

ghost use Rattle.std.specs.Prelude.{◌≡◌, ◌<◌, ◌≤◌, ◌+◌, ◌-◌, ◌++◌, ℕ, All, [], length, take, min, slice_index_or, slice_range, IfOk, MatchOption, MatchResult};
ghost use Rattle.std.specs.Vec.{vec_capacity};
ghost use Rattle.names.specs.declared.format.Rules.{Rules};
ghost use Rattle.records.specs.Payload.{group_limit};
ghost use Rattle.decoded.specs.Standing.{View};
ghost use Rattle.durable.specs.Settled.{device_of, serves};
ghost use Rattle.api.specs.Answers.{ShowsAt, HasCauses};
ghost use Rattle.sessions.specs.Turn.{Turned};
ghost use Rattle.sessions.specs.Notes.{listed, Tells};
ghost use Rattle.sessions.specs.Stops.{TurnStops};

use crate::session::{Session, Tools};
use crate::turn::answer_all;
use api::ServeFault;
use device::Device;
use durable::Store;
use httpmsg::Message;
use records::GROUP_LIMIT;
use std::alloc::{AllocError, Global};
use std::mem::swap;

/// A client with this many bytes that wait to be sent gets no further message answered until it takes some.
pub const UNSENT_LIMIT: usize = 65536;

/// As many messages as a record of a store holds writes, each with the place of the session that it comes from.
#[derive(Drop)]
pub struct Batch {
    messages: Vec<Message>,
    places: Vec<usize>,
    // Those that were answered last, until they are forgotten.
    answered: Vec<Message>,
    ghost room: { group_limit ≤ vec_capacity messages },
    ghost places_room: { group_limit ≤ vec_capacity places },
    ghost answered_room: { group_limit ≤ vec_capacity answered },
    ghost alike: { length places.items ≡ length messages.items },
    ghost few: { length messages.items ≤ group_limit },
}

impl Batch {
    ghost use Rattle.sessions.specs.State.{State};
    ghost use Rattle.sessions.specs.Batch.{Takes, AllKept, IsPassedOver, places_of, last_place, held, last_answered, with_turn, by_turns, BeginsAt};

    /// An empty one. All its memory is taken here.
    pub fn new(alloc: Global) -> Result<Batch, AllocError>
        ensures { IfOk result (λ batch. held batch ≡ []) }
    {
        Ok(Batch {
            messages: Vec::with_capacity(alloc, GROUP_LIMIT)?,
            places: Vec::with_capacity(alloc, GROUP_LIMIT)?,
            answered: Vec::with_capacity(alloc, GROUP_LIMIT)?,
        })
    }

    /// The places of the sessions whose messages it holds, one for each message.
    pub fn places(&self) -> &[usize]
        ensures { result.now ≡ places_of self.now }
    {
        &self.places
    }

    /// The messages that were answered last, in their order, until they are forgotten.
    pub fn answered(&self) -> &[Message]
        ensures { result.now ≡ last_answered self.now }
    {
        &self.answered
    }

    /// Forgets the messages that were answered last, whose bodies take memory.
    pub fn forget(&mut self)
        ensures forgotten { last_answered self.new ≡ [] }
        ensures held { held self.new ≡ held self.old }
    {
        self.answered.clear();
    }

    // Takes the first message that waits in a session, if there is one, and room for it, and its client does not leave too much unread.
    fn take_from(&mut self, place: usize, session: &mut Session)
        ensures { Takes place self.old self.new session.old session.new }
    {
        if self.messages.len() >= GROUP_LIMIT {
            return;
        }
        if session.rest().len() >= UNSENT_LIMIT {
            return;
        }
        match session.next_message() {
            Some(message) => {
                self.messages.push_reserved(message);
                self.places.push_reserved(place);
            }
            None => {}
        }
    }

    // Takes a message of each session from one place to another, as long as there is room.
    fn pass(&mut self, sessions: &mut [Session], from: usize, to: usize)
        requires { to ≤ length sessions.old }
        ensures kept { AllKept self.old self.new sessions.old sessions.new }
        ensures known { All (λ p. p < length sessions.old) (places_of self.old) → All (λ p. p < length sessions.old) (places_of self.new) }
        ensures more { length (held self.old) ≤ length (held self.new) }
        ensures none { held self.new ≡ [] → (i : ℕ) (d : State) → from ≤ i → i < to → IsPassedOver (slice_index_or sessions.old i d) }
        ensures before { take from sessions.new ≡ take from sessions.old }
        ensures turns { places_of self.new ≡ places_of self.old
            ++ take (group_limit - length (places_of self.old)) (with_turn from (slice_range sessions.old from to)) }
    {
        for place in from..to {
            self.take_from(place, &mut sessions[place]);
        }
    }

    // Takes a message of each session, as long as there is room, from one place on and then those before it.
    fn round(&mut self, sessions: &mut [Session], first: usize)
        requires { first ≤ length sessions.old }
        ensures kept { AllKept self.old self.new sessions.old sessions.new }
        ensures known { All (λ p. p < length sessions.old) (places_of self.old) → All (λ p. p < length sessions.old) (places_of self.new) }
        ensures more { length (held self.old) ≤ length (held self.new) }
        ensures none { held self.new ≡ [] → (i : ℕ) (d : State) → i < length sessions.old → IsPassedOver (slice_index_or sessions.old i d) }
        ensures turns { places_of self.new ≡ places_of self.old
            ++ take (group_limit - length (places_of self.old)) (by_turns first sessions.old) }
    {
        let end = sessions.len();
        self.pass(sessions, first, end);
        self.pass(sessions, 0, first);
    }

    /// Takes messages that wait in sessions, by turns: one of each session, from a place on, and then another of each, until none waits or
    /// there is no more room. A session of which [`UNSENT_LIMIT`] bytes wait to be sent is passed over. It gives the place that the next
    /// batch begins with.
    pub fn gather(&mut self, sessions: &mut [Session], first: usize) -> usize
        requires empty { held self.old ≡ [] }
        ensures kept { AllKept self.old self.new sessions.old sessions.new }
        ensures known { All (λ p. p < length sessions.old) (places_of self.new) }
        ensures begins { BeginsAt first sessions.old (places_of self.new) }
        ensures next { MatchOption (last_place (places_of self.new)) (result ≡ min first (length sessions.old)) (λ p. result ≡ p + 1) }
        ensures some { held self.new ≡ [] → (i : ℕ) (d : State) → i < length sessions.old → IsPassedOver (slice_index_or sessions.old i d) }
    {
        let first = first.min(sessions.len());
        let mut before = 0;
        self.round(sessions, first);
        while before < self.messages.len() {
            before = self.messages.len();
            self.round(sessions, first);
        }
        match self.places.last() {
            Some(place) => place.saturating_add(1),
            None => first,
        }
    }

    /// Answers the messages by a store, in their order and in one group, and puts each answer to what its session sends. Where memory is
    /// refused to a message, that one is told so, and those behind it are a group of their own. The batch is empty afterwards.
    ///
    /// # Errors
    ///
    /// `Device` where the store's device failed, and `Failed` where it had failed before: the sessions of the messages that are not answered
    /// are told so. `Damaged` where what was read of the store's device is damaged, and never of a store that shows a view.
    pub fn answer<D: Device>(
        &mut self,
        alloc: Global,
        tools: &mut Tools,
        sessions: &mut [Session],
        store: &mut Store<D>,
    ) -> Result<(), ServeFault>
        requires known { All (λ place. place < length sessions.old) (places_of self.old) }
        ensures outcome { (rules : Rules) (v : View) → ShowsAt rules store.old v → MatchResult result
            (λ _. Turned rules store.old store.new v (places_of self.old) (held self.old) sessions.old sessions.new)
            (TurnStops rules store.old store.new v (places_of self.old) (held self.old) sessions.old sessions.new) }
        ensures causes { HasCauses 0 0 (D.disk.failures (device_of store.old)) (D.disk.failures (device_of store.new))
            (serves store.old) (serves store.new) result }
        ensures empty { held self.new ≡ [] }
        ensures answered { last_answered self.new ≡ held self.old }

        // Where notes are kept, they tell of the reply to each of these messages.
        ensures told { (rules : Rules) (v : View) → ShowsAt rules store.old v → IfOk result
            (λ _. Tells rules store.old store.new v (places_of self.old) (held self.old) sessions.old sessions.new
            tools.old.notes.is_kept [] (listed tools.new.notes)) }
        ensures kept { tools.new.notes.is_kept ≡ tools.old.notes.is_kept }
    {
        tools.notes.clear();
        match answer_all(alloc, tools, &self.messages, &self.places, sessions, store) {
            Ok(()) => {
                self.keep_answered();
                Ok(())
            }
            Err(fault) => {
                self.keep_answered();
                Err(fault)
            }
        }
    }

    // Keeps the messages as those that were answered last, and holds none any more.
    fn keep_answered(&mut self)
        ensures held { held self.new ≡ [] }
        ensures answered { last_answered self.new ≡ held self.old }
    {
        swap(&mut self.messages, &mut self.answered);
        self.messages.clear();
        self.places.clear();
    }
}
