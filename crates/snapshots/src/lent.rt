//! A view whose parts are lent.

ghost use Rattle.std.specs.Prelude.{◌≡◌, ◌+◌, ◌^◌, ◌<◌, ◌++◌, List, length, map, IfOk, OnOk};
ghost use Rattle.circular_buffer.specs.Buffer.{keep_last};
ghost use Rattle.histories.specs.View.{View};
ghost use Rattle.holdings.specs.Holdings.{Shows};
ghost use Rattle.decoded.specs.Decoded.{Decoded as DecodedData};
ghost use Rattle.snapshots.specs.Added.{AreAdded, NewObject, with_added};
ghost use Rattle.snapshots.specs.LyingBelow.{apart_of};

use crate::added::Added;
use crate::below::Below;
use decoded::{Core, Decoded};
use documents::Document;
use histories::Stored;
use names::Key;
use objects::Lent;
use std::alloc::{AllocError, Global};
use std::marker::Model;
use window::{Event, Events};

/// A view whose parts are lent: what a checkpoint is to keep.
#[derive(Drop)]
pub struct LentView<'a> {
    /// The objects, in key order.
    pub(crate) objects: Vec<Lent<'a, Stored<Decoded>>>,
    /// The last events, oldest first.
    pub(crate) events: Vec<&'a Event<Document>>,
    /// The revision of the last write, 1 where there was none.
    pub(crate) revision: u64,
}

impl<'a> Model for LentView<'a> {
    ghost use Rattle.std.specs.Prelude.{map};
    ghost use Rattle.histories.specs.View.{View};
    ghost use Rattle.decoded.specs.Decoded.{Decoded as DecodedData};
    ghost use Rattle.std.specs.Coded.{codes};
    ghost use Rattle.jsondoc.specs.DataCode.{coded_data};

    ghost Value = { View DecodedData };

    ghost coded = { Prim.hlevel (codes, coded_data) };

    ghost view = { λ v. record { objects = v.objects.items; revision = v.revision; events = map (λ event. event.now) v.events.items } };
}

impl<'a> LentView<'a> {
    /// How many objects it has.
    pub fn object_count(&self) -> usize
        ensures { result ≡ length self.now.objects }
    {
        self.objects.len()
    }

    /// The revision of its last write, 1 where there was none.
    pub fn revision(&self) -> u64
        ensures { result ≡ self.now.revision }
    {
        self.revision
    }

    /// The view with objects that were added behind its revision, and of all events the last, as many as there are places. No object is copied.
    ///
    /// # Errors
    ///
    /// Out of memory.
    pub fn with(
        self,
        alloc: Global,
        added: &'a Added,
        places: usize,
    ) -> Result<LentView<'a>, AllocError>
        requires { self.revision + length added.now.objects.items < 2 ^ 64 }
        ensures { (news : List (NewObject DecodedData)) → AreAdded added.now self.entry.revision news
            → IfOk result (λ view. view ≡ with_added places self.entry news) }
    {
        let LentView {
            mut objects,
            mut events,
            revision,
        } = self;
        lend_objects(&mut objects, &added.objects)?;
        lend_events(&mut events, &added.events)?;
        Ok(LentView {
            objects,
            events: last_of(events, places)?,
            revision: revision + added.objects.len() as u64,
        })
    }

    /// What of it does not lie below once all of it is written.
    pub(crate) fn apart<B: Below>(self, below: &B) -> LentView<'a>
        ensures { result ≡ apart_of (B.lies below.now) self.entry }
    {
        let LentView {
            mut objects,
            events,
            revision,
        } = self;
        objects.retain(|object| !below.lies(object.key.resource()));
        LentView {
            objects,
            events,
            revision,
        }
    }
}

// Lends objects, behind others.
fn lend_objects<'a>(
    lent: &mut Vec<Lent<'a, Stored<Decoded>>>,
    objects: &'a [(Key, Stored<Decoded>)],
) -> Result<(), AllocError>
    ensures { OnOk result (lent.new.items ≡ lent.old.items ++ objects.now) }
{
    for (key, value) in objects {
        lent.push(Lent { key, value })?;
    }
    Ok(())
}

// Lends events, behind others.
fn lend_events<'a>(
    lent: &mut Vec<&'a Event<Document>>,
    events: &'a [Event<Document>],
) -> Result<(), AllocError>
    ensures { OnOk result (map (λ event. event.now) lent.new.items ≡ map (λ event. event.now) lent.old.items ++ events.now) }
{
    for event in events {
        lent.push(event)?;
    }
    Ok(())
}

// The last of events, as many as there are places.
fn last_of<'a>(
    events: Vec<&'a Event<Document>>,
    places: usize,
) -> Result<Vec<&'a Event<Document>>, AllocError>
    ensures { IfOk result (λ last. map (λ event. event.now) last.items ≡ keep_last places (map (λ event. event.now) events.entry.items)) }
{
    let mut events = events;
    let surplus = events.len().saturating_sub(places);
    events.split_off(surplus)
}

/// The same events, as a list.
pub(crate) fn lent_events<'a>(
    alloc: Global,
    events: Events<'a, Document>,
) -> Result<Vec<&'a Event<Document>>, AllocError>
    ensures { IfOk result (λ lent. map (λ event. event.now) lent.items ≡ events.entry) }
{
    let mut lent = Vec::new(alloc);
    for event in events {
        lent.push(event)?;
    }
    Ok(lent)
}

/// What the core shows over the objects that lie below. No object is copied.
///
/// # Errors
///
/// Out of memory.
pub fn shown<'a>(
    alloc: Global,
    core: &'a Core,
    below: &'a [(Key, Stored<Decoded>)],
) -> Result<LentView<'a>, AllocError>
    ensures { (held : View DecodedData) → Shows core.now below.now held → IfOk result (λ view. view ≡ held) }
{
    let objects = core.objects(alloc, below)?;
    let events = lent_events(alloc, core.events())?;
    Ok(LentView {
        objects,
        events,
        revision: core.revision(),
    })
}
