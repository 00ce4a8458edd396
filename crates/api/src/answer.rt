//! Messages, answered in groups: the writes of a group stand in one record of the store, and its replies go out together.

ghost use Rattle.std.specs.Prelude.{◌≡◌, ◌≤◌, ◌⊎◌, ◌+◌, [], List, length, min, map, take, true, false, IfOk, OnOk, IfErr, IsErrOf, MatchResult};
ghost use Rattle.requests.specs.RequestOf.{request_of};
ghost use Rattle.names.specs.declared.format.Rules.{Rules};
ghost use Rattle.records.specs.Payload.{group_limit};
ghost use Rattle.decoded.specs.Standing.{View};
ghost use Rattle.requests.specs.Reply.{Reply as ReplyData};
ghost use Rattle.device.specs.Disk.{HasFailed};
ghost use Rattle.durable.specs.declared.fault.Damage.{Damage};
ghost use Rattle.durable.specs.Settled.{device_of, serves, ServesAt, HasServed, HasStopped};
ghost use Rattle.api.specs.Answers.{ShowsAt, Answers, Stops, RefusesLast, HasCauses};

use crate::fault::ServeFault;
use device::Device;
use durable::{Fault, Store};
use httpmsg::{Message, Output, Sheet};
use records::GROUP_LIMIT;
use requests::{Reply, Request};
use routes::{Routes, route_front, write_answers, write_storage_failed};
use std::alloc::{AllocError, Global};

/// What the store replies to requests, up to the one to which memory was refused.
///
/// # Errors
///
/// `Device` where the store's device failed, `Failed` where it had failed before, and `Damaged` where what was read of it is damaged.
pub fn replies_to<D: Device>(
    alloc: Global,
    requests: &[Request],
    store: &mut Store<D>,
) -> Result<Vec<Reply>, ServeFault>
    ensures served { (rules : Rules) (v : View) → ServesAt rules store.old v
        → IfOk result (λ replies. HasServed store.old store.new (take (length replies.items) (map request_of requests.now)) replies.items) }
    ensures serves { OnOk result (serves store.old ≡ true) }
    ensures goes_on { OnOk result (serves store.new ≡ serves store.old) }
    ensures stopped { IsErrOf result ServeFault.Device → (given : List ReplyData) × HasStopped store.old store.new (map request_of requests.now) given }
    ensures stops { IsErrOf result ServeFault.Device → (serves store.old ≡ true) × (serves store.new ≡ false) }
    ensures damaged { (damage : Damage) → IsErrOf result (ServeFault.Damaged damage) → (rules : Rules) (v : View) → ServesAt rules store.old v → ⊥ }
    ensures damaged_stops { (damage : Damage) → IsErrOf result (ServeFault.Damaged damage) → (serves store.old ≡ true) × (serves store.new ≡ false) }
    ensures failed { IsErrOf result ServeFault.Failed → (serves store.old ≡ false) × (store.new ≡ store.old) }
    ensures refusal { IfErr result (λ fault. (fault ≡ ServeFault.Device) ⊎ (fault ≡ ServeFault.Failed) ⊎ ((damage : Damage) × (fault ≡ ServeFault.Damaged damage))) }
    ensures cause { IsErrOf result ServeFault.Device → HasFailed D.disk (device_of store.old) (device_of store.new) }
    ensures count { D.disk.failures (device_of store.old) ≤ D.disk.failures (device_of store.new) }
{
    let (replies, fault) = store.run(alloc, requests);
    match fault {
        None => Ok(replies),
        // To the request after those that were answered.
        Some(Fault::Memory) => Ok(replies),
        Some(Fault::Device) => Err(ServeFault::Device),
        Some(Fault::Damaged(damage)) => Err(ServeFault::Damaged(damage)),
        Some(Fault::Failed) => Err(ServeFault::Failed),
        Some(Fault::Exhausted) => unreachable!("requests begin no generation"),
    }
}

/// How many messages are answered with this many replies: where there are more messages, memory was refused to the next one.
pub fn answered_count(replies: usize, messages: usize) -> usize
    requires { 1 ≤ messages }
    ensures one_more { result ≡ min (replies + 1) messages }
    ensures some { 1 ≤ result }
    ensures few { result ≤ messages }
    ensures replies { replies ≤ messages → replies ≤ result }
{
    if replies < messages {
        replies + 1
    } else {
        messages
    }
}

// Answers messages of a group from the first on, at least one, and says how many. Where memory is refused to one, it is the last of them.
fn answer_front<O: Output, D: Device>(
    alloc: Global,
    routes: &Routes,
    messages: &[Message],
    output: &mut O,
    sheet: &mut Sheet,
    store: &mut Store<D>,
) -> Result<usize, ServeFault>
    requires some { 1 ≤ length messages.now }
    requires few { length messages.now ≤ group_limit }
    ensures count { IfOk result (λ count. (1 ≤ count) × (count ≤ length messages.now)) }
    ensures outcome { (rules : Rules) (v : View) → ShowsAt rules store.old v → MatchResult result
        (λ count. Answers rules O.took output.old output.new store.old store.new v (take count messages.now) [])
        (Stops rules O.took O.failures output.old output.new store.old store.new v messages.now) }
    ensures damage_told { (damage : Damage) → IsErrOf result (ServeFault.Damaged damage) → RefusesLast O.took O.failures output.old output.new }
    ensures causes { HasCauses (O.failures output.old) (O.failures output.new) (D.disk.failures (device_of store.old))
        (D.disk.failures (device_of store.new)) (serves store.old) (serves store.new) result }
{
    let front = route_front(alloc, routes, store.format(), messages);
    match replies_to(alloc, &front.requests, store) {
        Ok(replies) => {
            let count = answered_count(replies.len(), messages.len());
            match write_answers(output, sheet, &messages[..count], &replies, &front.allows) {
                Ok(()) => Ok(count),
                Err(_) => Err(ServeFault::Write),
            }
        }
        Err(fault) => {
            // The store's fault counts, also where the refusal can't be written.
            let _ = write_storage_failed(output, sheet);
            Err(fault)
        }
    }
}

// Answers the messages of a group.
fn answer_group<O: Output, D: Device>(
    alloc: Global,
    routes: &Routes,
    messages: &[Message],
    output: &mut O,
    sheet: &mut Sheet,
    store: &mut Store<D>,
) -> Result<(), ServeFault>
    requires { length messages.now ≤ group_limit }
    ensures outcome { (rules : Rules) (v : View) → ShowsAt rules store.old v → MatchResult result
        (λ _. Answers rules O.took output.old output.new store.old store.new v messages.now [])
        (Stops rules O.took O.failures output.old output.new store.old store.new v messages.now) }
    ensures damage_told { (damage : Damage) → IsErrOf result (ServeFault.Damaged damage) → RefusesLast O.took O.failures output.old output.new }
    ensures causes { HasCauses (O.failures output.old) (O.failures output.new) (D.disk.failures (device_of store.old))
        (D.disk.failures (device_of store.new)) (serves store.old) (serves store.new) result }
{
    let mut rest = messages;
    while !rest.is_empty() {
        match answer_front(alloc, routes, rest, output, sheet, store) {
            Ok(count) => rest = &rest[count..],
            Err(fault) => return Err(fault),
        }
    }
    Ok(())
}

// How many of the messages that wait are a group, whose writes stand in one record: as many as a record holds writes, and else all.
fn group_size(waiting: usize) -> usize
    ensures { result ≡ min waiting group_limit }
{
    waiting.min(GROUP_LIMIT)
}

/// Answers messages, in groups of as many as a record holds writes.
pub(crate) fn answer_all<O: Output, D: Device>(
    alloc: Global,
    routes: &Routes,
    messages: &[Message],
    output: &mut O,
    sheet: &mut Sheet,
    store: &mut Store<D>,
) -> Result<(), ServeFault>
    ensures outcome { (rules : Rules) (v : View) → ShowsAt rules store.old v → MatchResult result
        (λ _. Answers rules O.took output.old output.new store.old store.new v messages.now [])
        (Stops rules O.took O.failures output.old output.new store.old store.new v messages.now) }
    ensures damage_told { (damage : Damage) → IsErrOf result (ServeFault.Damaged damage) → RefusesLast O.took O.failures output.old output.new }
    ensures causes { HasCauses (O.failures output.old) (O.failures output.new) (D.disk.failures (device_of store.old))
        (D.disk.failures (device_of store.new)) (serves store.old) (serves store.new) result }
{
    let mut rest = messages;
    while !rest.is_empty() {
        let (group, more) = rest.split_at(group_size(rest.len()));
        match answer_group(alloc, routes, group, output, sheet, store) {
            Ok(()) => rest = more,
            Err(fault) => return Err(fault),
        }
    }
    Ok(())
}
