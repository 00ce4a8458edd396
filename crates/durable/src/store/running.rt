//! Answering requests in order, a group at a time.

ghost use Rattle.std.specs.Prelude.{◌≡◌, ◌≤◌, ◌+◌, [], length, min, take, map, true, false, None, Some, IfSome, OnOk, IsErrOf, ◌⊎◌};
ghost use Rattle.records.specs.Payload.{group_limit};

use crate::fault::Fault;
use crate::store::Store;
use device::Device;
use records::{GROUP_LIMIT, Group};
use requests::{Reply, Request};
use std::alloc::Global;

// How many of the requests that wait are a group, whose writes stand in one record: as many as a record holds writes, and else all.
fn group_size(waiting: usize) -> usize
    ensures { result ≡ min waiting group_limit }
{
    waiting.min(GROUP_LIMIT)
}

impl<D: Device> Store<D> {
    ghost use Rattle.device.specs.Disk.{HasFailed};
    ghost use Rattle.device.specs.Run.{Ran};
    ghost use Rattle.device.specs.Step.{Same};
    ghost use Rattle.std.specs.Vec.{vec_capacity};
    ghost use Rattle.names.specs.declared.format.Rules.{Rules};
    ghost use Rattle.requests.specs.RequestOf.{request_of};
    ghost use Rattle.records.specs.Gathered.{Gathers};
    ghost use Rattle.decoded.specs.Standing.{View};
    ghost use Rattle.durable.specs.declared.fault.Damage.{Damage};
    ghost use Rattle.durable.specs.declared.fault.Fault.TheVariants as Fault;
    ghost use Rattle.durable.specs.Called.{IsSteady, ServesOn};
    ghost use Rattle.durable.specs.Faults.{MayBeMet};
    ghost use Rattle.durable.specs.Gathered.{HasGatheredMore, HasServedMore, HasStoppedIn, HasAnswered, HasMet};
    ghost use Rattle.durable.specs.Settled.{device_of, serves, ServesAt, HasServed, HasStopped, HasFoundDamage};

    /// Answers requests in order, until a fault. The replies are those that were given before it.
    ///
    /// # Errors
    ///
    /// As [`Store::apply`]: the fault is that of the request after those that were answered. There is memory for the replies of all
    /// requests before the first is applied, or the fault is `Memory` with no reply. A store that has failed answers `Failed`, also
    /// where there is no request.
    #[must_use]
    pub fn run(&mut self, alloc: Global, requests: &[Request]) -> (Vec<Reply>, Option<Fault>)
        ensures all { result.1 ≡ None
            → HasServed self.old self.new (map request_of requests.now) result.0.items }
        ensures memory { result.1 ≡ Some Fault.Memory
            → HasServed self.old self.new (take (length result.0.items) (map request_of requests.now)) result.0.items }

        ensures device { result.1 ≡ Some Fault.Device
            → HasStopped self.old self.new (map request_of requests.now) result.0.items }

        // Damage is found only where no view is shown, and nothing is written for the request that finds it.
        ensures damaged { (damage : Damage) → result.1 ≡ Some (Fault.Damaged damage) → (rules : Rules) (v : View) → ServesAt rules self.old v → ⊥ }
        ensures damaged_ran { (damage : Damage) → result.1 ≡ Some (Fault.Damaged damage) → result.0.items ≡ []
            → Ran D.disk (device_of self.old) (device_of self.new) Same }
        ensures damaged_served { (damage : Damage) → result.1 ≡ Some (Fault.Damaged damage)
            → HasFoundDamage self.old self.new (map request_of requests.now) result.0.items }

        ensures refusal { serves self.old ≡ true → IfSome result.1 MayBeMet }
        ensures failed { serves self.old ≡ false → (self.new ≡ self.old) × (result.0.items ≡ []) × (result.1 ≡ Some Fault.Failed) }
        ensures goes_on { (result.1 ≡ None) ⊎ (result.1 ≡ Some Fault.Memory) → serves self.new ≡ serves self.old }
        ensures stops { result.1 ≡ Some Fault.Device → serves self.new ≡ false }
        ensures damaged_stops { (damage : Damage) → result.1 ≡ Some (Fault.Damaged damage) → serves self.new ≡ false }
        ensures cause { result.1 ≡ Some Fault.Device → HasFailed D.disk (device_of self.old) (device_of self.new) }
        ensures count { D.disk.failures (device_of self.old) ≤ D.disk.failures (device_of self.new) }
        ensures steady { (result.1 ≡ None) ⊎ (result.1 ≡ Some Fault.Memory) → IsSteady self.old self.new }
    {
        if !self.settled() {
            return (Vec::new(alloc), Some(Fault::Failed));
        }
        let mut replies = match Vec::with_capacity(alloc, requests.len()) {
            Ok(replies) => replies,
            Err(_) => return (Vec::new(alloc), Some(Fault::Memory)),
        };
        let mut rest = requests;
        while !rest.is_empty() {
            let (group, more) = rest.split_at(group_size(rest.len()));
            match self.answer_group(alloc, group, &mut replies) {
                None => rest = more,
                Some(fault) => return (replies, Some(fault)),
            }
        }
        (replies, None)
    }

    // Answers the requests of a group, up to a fault. What the replies tell of is on the device; where the store stops none is given.
    fn answer_group(
        &mut self,
        alloc: Global,
        requests: &[Request],
        replies: &mut Vec<Reply>,
    ) -> Option<Fault>
        requires serves { serves self.old ≡ true }
        requires few { length requests.now ≤ group_limit }
        requires room { length replies.old.items + length requests.now ≤ vec_capacity replies.old }
        ensures answered { HasAnswered self.old self.new (map request_of requests.now) replies.old.items replies.new.items result }
        ensures none { (damage : Damage) → result ≡ Some (Fault.Damaged damage) → replies.new.items ≡ replies.old.items }
        ensures met { HasMet self.old self.new (length requests.now) replies.old replies.new result }
    {
        let before = replies.len();
        let stop = self.take_group(alloc, requests, replies);
        if self.serves {
            return stop;
        }
        replies.truncate(before);
        stop
    }

    // Takes the steps of a group's requests, up to one that meets a fault, and appends their writes while the store serves.
    fn take_group(
        &mut self,
        alloc: Global,
        requests: &[Request],
        replies: &mut Vec<Reply>,
    ) -> Option<Fault>
        requires serves { serves self.old ≡ true }
        requires few { length requests.now ≤ group_limit }
        requires room { length replies.old.items + length requests.now ≤ vec_capacity replies.old }
        ensures served { serves self.new ≡ true → HasServedMore self.old self.new (map request_of requests.now) replies.old.items replies.new.items }
        ensures stopped { result ≡ Some Fault.Device → HasStoppedIn self.old self.new (map request_of requests.now) }
        ensures front { take (length replies.old.items) replies.new.items ≡ replies.old.items }
        ensures met { HasMet self.old self.new (length requests.now) replies.old replies.new result }
    {
        let mut group = match Group::new(alloc) {
            Ok(group) => group,
            Err(_) => return Some(Fault::Memory),
        };
        let gathered = self.gather_all(alloc, requests, &mut group, replies);
        if !self.serves {
            return gathered.err();
        }
        match self.append_group(group) {
            Ok(()) => gathered.err(),
            Err(fault) => Some(fault),
        }
    }

    // Takes the steps of a group's requests, up to one that meets a fault.
    fn gather_all(
        &mut self,
        alloc: Global,
        requests: &[Request],
        group: &mut Group,
        replies: &mut Vec<Reply>,
    ) -> Result<(), Fault>
        requires serves { serves self.old ≡ true }
        requires none { Gathers group.old [] }
        requires few { length requests.now ≤ group_limit }
        requires room { length replies.old.items + length requests.now ≤ vec_capacity replies.old }
        ensures gathered { serves self.new ≡ true
            → HasGatheredMore self.old self.new group.new (map request_of requests.now) replies.old.items replies.new.items }
        ensures stopped { IsErrOf result Fault.Device → HasStoppedIn self.old self.new (map request_of requests.now) }
        ensures damaged { (damage : Damage) → IsErrOf result (Fault.Damaged damage) → (rules : Rules) (v : View) → ServesAt rules self.old v → ⊥ }
        ensures front { take (length replies.old.items) replies.new.items ≡ replies.old.items }
        ensures all { OnOk result (length replies.new.items ≡ length replies.old.items + length requests.now) }
        ensures room { vec_capacity replies.new ≡ vec_capacity replies.old }
        ensures device { Ran D.disk (device_of self.old) (device_of self.new) Same }
        ensures leaves { ServesOn self.old self.new result }
    {
        for request in requests {
            match self.step(alloc, request, group) {
                Ok(reply) => replies.push_reserved(reply),
                Err(fault) => return Err(fault),
            }
        }
        Ok(())
    }
}
