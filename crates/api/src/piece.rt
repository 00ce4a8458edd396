//! Pieces of an input, and its end.

ghost use Rattle.std.specs.Prelude.{◌≡◌, ◌≢◌, ◌<◌, ◌≤◌, ◌⊎◌, ℕ, List, [], length, take, false, Some, None, IfOk, OnOk, IfErr, IsErrOf, MatchResult};
ghost use Rattle.requests.specs.declared.refusal.Refusal.TheVariants as refusal;
ghost use Rattle.names.specs.declared.format.Rules.{Rules};
ghost use Rattle.decoded.specs.Standing.{View};
ghost use Rattle.durable.specs.Settled.{device_of, serves};
ghost use Rattle.durable.specs.declared.fault.Damage.{Damage as DamageData};
ghost use Rattle.httpmsg.specs.declared.head.BrokenMessage.{BrokenMessage as BrokenData};
ghost use Rattle.httpmsg.specs.Flow.{TookSome};
ghost use Rattle.httpmsg.specs.Stream.{Message as MessageData, IsCut};
ghost use Rattle.httpmsg.specs.declared.head.End.{End as EndData};
ghost use Rattle.objects.specs.Failing.{HasGrown};
ghost use Rattle.api.specs.Answers.{ShowsAt, RefusesLast, HasCauses};
ghost use Rattle.routes.specs.ReplyBytes.{closing_bytes, end_bytes};
ghost use Rattle.api.specs.Serving.{HasAllCauses};
ghost use Rattle.api.specs.Piece.{Tells, Breaks, Steps, StepsWrong, Finishes, FinishesInPart};

use crate::answer::answer_all;
use crate::fault::ServeFault;
use device::Device;
use durable::Store;
use httpmsg::{CutFault, Cutter, End, HeadRoom, Input, Message, Output, Sheet};
use routes::{Routes, write_fault, write_no_more};
use std::alloc::{AllocError, Global};

/// What a piece of the input told.
#[derive(Clone, Copy)]
pub(crate) enum Told {
    /// Messages, which are answered; a fault may stand after them.
    Messages,
    /// No message, and no end.
    Nothing,
    /// The stream's end, whose reply is written.
    Ends(End),
}

/// A connection that is served: how far its bytes are cut, and what its replies are made with, which is all that its memory is
/// needed for.
///
/// It holds neither an input nor a store, so pieces of several connections may be taken by turns over one store.
#[derive(Drop)]
pub(crate) struct Connection {
    pub(crate) cutter: Cutter,
    pub(crate) room: HeadRoom,
    pub(crate) sheet: Sheet,
    pub(crate) routes: Routes,
}

impl Connection {
    /// A connection of which nothing was read.
    pub(crate) fn new(alloc: Global) -> Result<Connection, AllocError>
        ensures { IfOk result (λ connection. connection.cutter ≡ record { pending = []; end = None }) }
    {
        Ok(Connection {
            cutter: Cutter::new(alloc),
            room: HeadRoom::new(alloc)?,
            sheet: Sheet::new(alloc)?,
            routes: Routes::new(alloc)?,
        })
    }

    /// Takes a piece of the input, and answers what it tells.
    pub(crate) fn take_piece<O: Output, D: Device>(
        &mut self,
        alloc: Global,
        piece: &[u8],
        output: &mut O,
        store: &mut Store<D>,
    ) -> Result<Told, ServeFault>
        ensures outcome { (rules : Rules) (v : View) (read : List ℕ) (ms : List MessageData) → ShowsAt rules store.old v → IsCut read ms self.old.cutter
            → MatchResult result
            (Tells rules O.took O.failures output.old output.new store.old store.new v read ms self.old.cutter piece.now self.new.cutter)
            (Breaks rules O.took O.failures output.old output.new store.old store.new v read ms self.old.cutter piece.now self.new.cutter) }
        ensures damage_told { (damage : DamageData) → IsErrOf result (ServeFault.Damaged damage) → RefusesLast O.took O.failures output.old output.new }
        ensures causes { HasCauses (O.failures output.old) (O.failures output.new) (D.disk.failures (device_of store.old))
            (D.disk.failures (device_of store.new)) (serves store.old) (serves store.new) result }
    {
        let Connection {
            cutter,
            room,
            sheet,
            routes,
        } = self;
        match cutter.feed(alloc, room, piece) {
            Ok(messages) => match answer_all(alloc, routes, &messages, output, sheet, store) {
                Ok(()) => Ok(told_by(&messages, cutter)),
                Err(fault) => Err(fault),
            },
            Err(fault) => answer_fault(fault, output, sheet),
        }
    }

    /// Ends the stream where the input has ended.
    pub(crate) fn finish<O: Output>(self, output: &mut O) -> Result<End, ServeFault>
        ensures outcome { (read : List ℕ) (ms : List MessageData) → IsCut read ms self.cutter → self.cutter.end ≡ None → MatchResult result
            (Finishes O.took output.old output.new read ms) (FinishesInPart O.took output.old output.new read ms) }
        ensures later { O.failures output.old ≤ O.failures output.new }
        ensures well { OnOk result (O.failures output.new ≡ O.failures output.old) }
        ensures cause { IsErrOf result ServeFault.Write → HasGrown (O.failures output.old) (O.failures output.new) }
        ensures only { IfErr result (λ fault. fault ≡ ServeFault.Write) }
    {
        let Connection {
            cutter,
            room,
            mut sheet,
            routes,
        } = self;
        drop((room, routes));
        match cutter.ending() {
            Ok(()) => Ok(End::Clean),
            Err(broken) => match write_fault(output, &mut sheet, broken) {
                Ok(()) => Ok(End::Broken(broken)),
                Err(_) => Err(ServeFault::Write),
            },
        }
    }
}

// Answers a piece that gives no messages.
fn answer_fault<O: Output>(
    fault: CutFault,
    output: &mut O,
    sheet: &mut Sheet,
) -> Result<Told, ServeFault>
    ensures broken { (broken : BrokenData) → fault ≡ CutFault.Broken broken → MatchResult result
        (λ told. (told ≡ Told.Ends (End.Broken broken)) × O.took output.old output.new (end_bytes (End.Broken broken)))
        (λ stop. (stop ≡ ServeFault.Write) × TookSome O.took output.old output.new (end_bytes (End.Broken broken))) }
    ensures memory { fault ≡ CutFault.Memory → MatchResult result (λ _. ⊥)
        (λ stop. ((stop ≡ ServeFault.Memory) × O.took output.old output.new (closing_bytes false refusal.OutOfMemory))
        ⊎ ((stop ≡ ServeFault.Write) × TookSome O.took output.old output.new (closing_bytes false refusal.OutOfMemory))) }
    ensures later { O.failures output.old ≤ O.failures output.new }
    ensures well { OnOk result (O.failures output.new ≡ O.failures output.old) }
    ensures cause { IsErrOf result ServeFault.Write → HasGrown (O.failures output.old) (O.failures output.new) }
    ensures only { IfErr result (λ stop. (stop ≡ ServeFault.Memory) ⊎ (stop ≡ ServeFault.Write)) }
{
    match fault {
        CutFault::Broken(broken) => match write_fault(output, sheet, broken) {
            Ok(()) => Ok(Told::Ends(End::Broken(broken))),
            Err(_) => Err(ServeFault::Write),
        },
        CutFault::Memory => match write_no_more(output, sheet) {
            Ok(()) => Err(ServeFault::Memory),
            Err(_) => Err(ServeFault::Write),
        },
    }
}

// What messages, which are answered, told.
fn told_by(messages: &[Message], cutter: &Cutter) -> Told
    ensures nothing { result ≡ Told.Nothing → (messages.now ≡ []) × (cutter.now.end ≢ Some End.Closed) }
    ensures ends { (end : EndData) → result ≡ Told.Ends end → (end ≡ End.Closed) × (cutter.now.end ≡ Some End.Closed) }
{
    if cutter.has_closed() {
        Told::Ends(End::Closed)
    } else if messages.is_empty() {
        Told::Nothing
    } else {
        Told::Messages
    }
}

/// Next action of the connection loop.
#[derive(Clone, Copy)]
pub(crate) enum Step {
    /// This many bytes of the buffer are the next piece.
    Feed(usize),
    /// The input has ended.
    Finish,
    /// The stream has ended, and its reply is written.
    End(End),
}

/// Feeds this many bytes of the buffer, answers what they tell, and reads on where they told no message. Nothing else reads, and at most
/// 8,192 bytes are read at once.
pub(crate) fn next_step<I: Input, O: Output, D: Device>(
    alloc: Global,
    connection: &mut Connection,
    buffer: &mut [u8],
    count: usize,
    input: &mut I,
    output: &mut O,
    store: &mut Store<D>,
) -> Result<Step, ServeFault>
    requires count { count ≤ length buffer.old }
    requires room { 0 < length buffer.old }
    requires most { length buffer.old ≤ 8192 }
    ensures outcome { (rules : Rules) (v : View) (read : List ℕ) (ms : List MessageData) → ShowsAt rules store.old v → IsCut read ms connection.old.cutter
        → MatchResult result
        (Steps rules I.gave O.took O.failures input.old input.new output.old output.new store.old store.new v read ms connection.old.cutter (take count buffer.old) connection.new.cutter
        buffer.new (I.has_ended input.new))
        (StepsWrong rules I.gave O.took O.failures input.old input.new output.old output.new store.old store.new v read ms connection.old.cutter (take count buffer.old)
        connection.new.cutter) }
    ensures fits { (n : ℕ) → result ≡ Ok (Step.Feed n) → n ≤ length buffer.new }
    ensures damage_told { (damage : DamageData) → IsErrOf result (ServeFault.Damaged damage) → RefusesLast O.took O.failures output.old output.new }
    ensures causes { HasAllCauses (I.failures input.old) (I.failures input.new) (O.failures output.old) (O.failures output.new)
        (D.disk.failures (device_of store.old)) (D.disk.failures (device_of store.new)) (serves store.old) (serves store.new) result }
{
    match connection.take_piece(alloc, &buffer[..count], output, store) {
        Ok(Told::Messages) => Ok(Step::Feed(0)),
        Ok(Told::Nothing) => match input.read(buffer) {
            Ok(0) => Ok(Step::Finish),
            Ok(count) => Ok(Step::Feed(count)),
            Err(_) => Err(ServeFault::Read),
        },
        Ok(Told::Ends(end)) => Ok(Step::End(end)),
        Err(fault) => Err(fault),
    }
}
