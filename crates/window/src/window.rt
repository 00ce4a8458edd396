ghost use Rattle.std.specs.Prelude.{◌≡◌, ◌↔◌, ◌⊎◌, ◌+◌, ◌^◌, ◌<◌, ◌≤◌, List, [], ◌∷◌, ◌++◌, length, IfOk};
ghost use Rattle.std.specs.Iterator.{at_most};
ghost use Rattle.std.specs.Map.Iter.{TakesFirst, deref};

use crate::event::{Change, Event};
use circular_buffer::{HeapCircularBuffer, Iter};
use names::{Key, Rules};
use std::alloc::{AllocError, Global};
use std::marker::Model;

/// Why the events above a revision cannot be told.
#[derive(Clone, Copy, Debug)]
pub enum WindowFault {
    /// Some of them may have left the window, or were never kept, since the revision is below the floor.
    TooOld,
    /// There is no such revision yet.
    TooNew,
}

/// The last events of a store, and its revision.
#[derive(Drop)]
pub struct Window<D> {
    ring: HeapCircularBuffer<Event<D>>,
    revision: u64,
    floor: u64,
}

impl<D> Model for Window<D> {
    ghost use Rattle.window.specs.Window.{Window as WindowData};

    ghost Value = { WindowData D };

    ghost use Rattle.std.specs.Prelude.{◌-◌, ◌<◌, ◌≤◌, length};
    ghost use Rattle.window.specs.Window.{AreNumberedFrom};

    ghost view = { λ w. record {
      events = w.ring.items;
      revision = w.revision;
      places = w.ring.capacity;
      floor = w.floor;
    } };

    ghost invariant = { λ w. (length w.ring.items < w.revision)
        × AreNumberedFrom (w.revision - length w.ring.items) w.ring.items × (length w.ring.items ≤ w.revision - w.floor) };
}

impl<D: Drop> Window<D> {
    ghost use Rattle.window.specs.Window.{IsWindowOf, event_at, with_event, events_above};
    ghost use Rattle.names.specs.declared.format.Rules.{Rules as RulesData};
    ghost use Rattle.window.specs.declared.event.Event.{Event as EventData};

    /// The window of an empty store, with room for as many events as the rules keep.
    pub fn new(alloc: Global, rules: Rules) -> Result<Window<D>, AllocError>
        ensures { IfOk result (IsWindowOf rules []) }
    {
        Window::after(alloc, rules, 1)
    }

    /// The window of a store at a revision of which no event is known, with room for as many events as the rules keep. What is
    /// pushed has the next revisions.
    pub fn after(alloc: Global, rules: Rules, revision: u64) -> Result<Window<D>, AllocError>
        requires { 0 < revision }
        ensures { IfOk result (λ window. window ≡ record { events = []; revision = revision; places = rules.window_events; floor = rules.floor }) }
    {
        let ring = HeapCircularBuffer::with_capacity(alloc, rules.window_events)?;
        Ok(Window {
            ring,
            revision,
            floor: rules.floor,
        })
    }

    /// The revision that the last write made, or 1 where there was none.
    pub fn revision(&self) -> u64
        ensures { result ≡ self.now.revision }
    {
        self.revision
    }

    /// All events of the window, oldest first. Takes no memory.
    pub fn events(&self) -> Events<'_, D>
        ensures { result ≡ self.now.events }
    {
        Events {
            events: self.ring.iter(),
        }
    }

    /// Adds the event of one more write, if it is above the floor. Takes no memory.
    pub fn push(&mut self, change: Change, key: Key, document: D)
        requires { self.old.revision + 1 < 2 ^ 64 }
        ensures value { self.new ≡ with_event self.old change key document }

        // After all events of a store, it is the window after these and one more.
        ensures window { (rules : RulesData) (all : List (EventData D)) →
            let event = event_at self.new.revision change key document in
            IsWindowOf rules all self.old → IsWindowOf rules (all ++ event ∷ []) self.new }
    {
        self.revision += 1;
        let revision = self.revision;
        if revision <= self.floor {
            return;
        }
        self.ring.push_back(Event {
            revision,
            change,
            key,
            document,
        });
    }

    /// The events above a revision, oldest first. Takes no memory.
    pub fn since(&self, revision: u64) -> Result<Events<'_, D>, WindowFault>
        ensures too_old { (result ≡ Err WindowFault.TooOld)
            ↔ ((revision ≤ self.now.revision) × ((revision + self.now.places < self.now.revision) ⊎ (revision < self.now.floor))) }
        ensures too_new { (result ≡ Err WindowFault.TooNew) ↔ (self.now.revision < revision) }
        ensures value { IfOk result (λ events. events ≡ events_above revision self.now.events) }

        // Of all events of a store, none above the revision is left out.
        ensures window { (rules : RulesData) (all : List (EventData D)) →
            IsWindowOf rules all self.now → IfOk result (λ events. events ≡ events_above revision all) }
    {
        if self.revision < revision {
            return Err(WindowFault::TooNew);
        }
        let above = self.revision - revision;
        if (self.ring.capacity() as u64) < above || revision < self.floor {
            return Err(WindowFault::TooOld);
        }
        let mut events = self.ring.iter();
        for _ in 0..(self.ring.len() as u64).saturating_sub(above) {
            events.next();
        }
        Ok(Events { events })
    }
}

/// The events above a revision, oldest first.
#[derive(Drop)]
pub struct Events<'a, D> {
    events: Iter<'a, Event<D>>,
}

impl<'a, D> Model for Events<'a, D> {
    ghost use Rattle.std.specs.Prelude.{List};
    ghost use Rattle.window.specs.declared.event.Event.{Event as EventData};

    ghost Value = { List (EventData D) };

    ghost view = { λ e. e.events };
}

impl<'a, D> Iterator for Events<'a, D> {
    type Item = &'a Event<D>;

    ghost next_gives = { TakesFirst deref };

    ghost remaining = { λ events. at_most (length events) };

    fn next(&mut self) -> Option<&'a Event<D>> {
        self.events.next()
    }
}
