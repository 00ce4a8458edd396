//! Answering one request, and appending the writes of a group.

ghost use Rattle.std.specs.Prelude.{◌≡◌, ◌≤◌, ◌+◌, ◌<◌, ◌++◌, [], List, true, false, is_ok, IfOk, IfErr, OnOk, OnErr, IsErrOf};
ghost use Rattle.records.specs.Payload.{group_limit};

use crate::fault::Fault;
use crate::record::gather;
use crate::store::Store;
use apicore::Prepared;
use device::Device;
use gatelog::Body;
use records::Group;
use requests::{Reply, Request};
use std::alloc::Global;

impl<D: Device> Store<D> {
    ghost use Rattle.device.specs.Disk.{HasCause, HasFailed};
    ghost use Rattle.device.specs.Run.{Ran, Stands};
    ghost use Rattle.device.specs.Step.{Same};
    ghost use Rattle.gatelog.specs.Payload.{payload_of};
    ghost use Rattle.names.specs.declared.format.Rules.{Rules};
    ghost use Rattle.requests.specs.Request.{RequestHasForm};
    ghost use Rattle.requests.specs.RequestOf.{request_of};
    ghost use Rattle.histories.specs.View.{view};
    ghost use Rattle.holdings.specs.Holdings.{ShowsSame};
    ghost use Rattle.holdings.specs.Prepared.{HasRoomFor};
    ghost use Rattle.records.specs.Gathered.{Gathers, count_of};
    ghost use Rattle.celtree.specs.Tree.{Expr};
    ghost use Rattle.expressions.specs.Specification.{Specification};
    ghost use Rattle.apicore.specs.Prepared.{IsReadOf, IsPrepared};
    ghost use Rattle.decoded.specs.Standing.{Write, History, View, IsView, AllMayFollow};
    ghost use Rattle.durable.specs.declared.fault.Damage.{Damage};
    ghost use Rattle.durable.specs.declared.fault.Fault.TheVariants as Fault;
    ghost use Rattle.durable.specs.Called.{IsSteady, ServesOn};
    ghost use Rattle.durable.specs.Faults.{MayBeMet};
    ghost use Rattle.durable.specs.Recorded.{payload, IsGroup};
    ghost use Rattle.durable.specs.Gathered.{in_record, CanBeAppended, HasStepped, StaysAs};
    ghost use Rattle.durable.specs.Ready.{HoldsHistory};
    ghost use Rattle.durable.specs.Settled.{device_of, root_of, format_of, serves, kept_rules, LiesUnder, LiesStill, IsShown, ServesAt, IsFound, IsSettledAt, LeavesSome, HasReplied, HasFailedAt};

    /// Answers a request. Its write, if it makes one, is on the disk when the reply is given.
    ///
    /// # Errors
    ///
    /// `Device` only where the device failed in this call: the write may stand or not. `Damaged` where what was read of the device is damaged,
    /// and never from a store that shows a view: nothing was written. From both on the store answers `Failed`. `Memory` changes nothing that is
    /// shown or stored. `Failed` after a failure, with no call of the device.
    pub fn apply(&mut self, alloc: Global, request: &Request) -> Result<Reply, Fault>
        ensures ok { serves self.old ≡ true → IfOk result (HasReplied self.old self.new (request_of request.now)) }
        ensures device { IsErrOf result Fault.Device → HasFailedAt self.old self.new (request_of request.now) }
        ensures memory_serving { (rules : Rules) (v : View) → ServesAt rules self.old v → IsErrOf result Fault.Memory
            → ServesAt rules self.new v × Ran D.disk (device_of self.old) (device_of self.new) Same }
        ensures memory { (rules : Rules) (h : History) → IsSettledAt rules self.old h → IsErrOf result Fault.Memory
            → IsSettledAt rules self.new h × LeavesSome rules self.old self.new h [] }

        // Damage is found only where no view is shown, and nothing is written then.
        ensures damaged { (damage : Damage) → IsErrOf result (Fault.Damaged damage) → (rules : Rules) (v : View) → ServesAt rules self.old v → ⊥ }
        ensures damaged_ran { (damage : Damage) → IsErrOf result (Fault.Damaged damage) → Ran D.disk (device_of self.old) (device_of self.new) Same }

        ensures refusal { serves self.old ≡ true → IfErr result MayBeMet }
        ensures failed { serves self.old ≡ false → IsErrOf result Fault.Failed × (self.new ≡ self.old) }
        ensures goes_on { OnOk result (serves self.new ≡ true) }
        ensures stops { IsErrOf result Fault.Device → serves self.new ≡ false }
        ensures damaged_stops { (damage : Damage) → IsErrOf result (Fault.Damaged damage) → serves self.new ≡ false }
        ensures memory_goes_on { IsErrOf result Fault.Memory → serves self.new ≡ serves self.old }
        ensures cause { IsErrOf result Fault.Device → HasFailed D.disk (device_of self.old) (device_of self.new) }
        ensures count { D.disk.failures (device_of self.old) ≤ D.disk.failures (device_of self.new) }
        ensures steady { OnOk result (IsSteady self.old self.new) }
        ensures unfailed { IsErrOf result Fault.Memory → IsSteady self.old self.new }
    {
        if !self.serves {
            return Err(Fault::Failed);
        }
        let mut group = Group::new(alloc)?;
        let reply = self.step(alloc, request, &mut group)?;
        self.append_group(group)?;
        Ok(reply)
    }

    // Prepares the step of a request. Where the device fails, or what is read of it is damaged, the store serves no more.
    fn prepare(&mut self, alloc: Global, request: &Request) -> Result<Prepared, Fault>
        requires serves { serves self.old ≡ true }
        ensures rules { kept_rules self.new ≡ kept_rules self.old }
        ensures root { root_of self.new ≡ root_of self.old }
        ensures shows { ShowsSame self.old.paged.core self.new.paged.core }
        ensures lies { LiesStill self.old self.new }
        ensures step { IfOk result (IsPrepared (LiesUnder self.old) self.old.paged.core (request_of request.now)) }
        ensures ready { IfOk result (λ p. HasRoomFor self.new.paged.core p.write) }
        ensures form { RequestHasForm (request_of request.now) }
        ensures device { Ran D.disk (device_of self.old) (device_of self.new) Same }
        ensures read { IsErrOf result Fault.Device → (s : Specification Expr) × IsReadOf (format_of self.old) (request_of request.now) s }
        ensures damaged { (damage : Damage) → IsErrOf result (Fault.Damaged damage) → (v : View) → IsShown self.old v → IsView (kept_rules self.old).format v → ⊥ }
        ensures leaves { ServesOn self.old self.new result }
    {
        match self.paged.prepare(alloc, &mut self.device, request) {
            Ok(prepared) => Ok(prepared),
            Err(fault) => Err(self.met(fault)),
        }
    }

    /// Takes the step of a request, after those of its group, whose writes are gathered and not on the device yet.
    pub(super) fn step(
        &mut self,
        alloc: Global,
        request: &Request,
        group: &mut Group,
    ) -> Result<Reply, Fault>
        requires serves { serves self.old ≡ true }
        requires few { count_of group.old < group_limit }
        ensures stepped { IfOk result (HasStepped self.old self.new group.old group.new (request_of request.now)) }
        ensures stays { IsErrOf result Fault.Memory → StaysAs self.old self.new group.old group.new }
        ensures device { Ran D.disk (device_of self.old) (device_of self.new) Same }
        ensures read { IsErrOf result Fault.Device → (s : Specification Expr) × IsReadOf (format_of self.old) (request_of request.now) s }
        ensures damaged { (damage : Damage) → IsErrOf result (Fault.Damaged damage) → (rules : Rules) (v : View) → ServesAt rules self.old v → ⊥ }
        ensures leaves { ServesOn self.old self.new result }
        ensures count { count_of group.new ≤ count_of group.old + 1 }
    {
        let prepared = self.prepare(alloc, request)?;
        gather(alloc, group, &prepared.write)?;
        let Prepared { reply, write } = prepared;
        self.paged.take(write);
        Ok(reply)
    }

    /// Appends the writes of a group, if there are any.
    pub(super) fn append_group(&mut self, group: Group) -> Result<(), Fault>
        requires serves { serves self.old ≡ true }
        requires few { count_of group ≤ group_limit }
        ensures paged { self.new.paged ≡ self.old.paged }
        ensures lies { LiesStill self.old self.new }
        ensures nothing { count_of group ≡ 0 → self.new ≡ self.old }
        ensures stands { (rules : Rules) (h : History) (ws : List Write) → HoldsHistory rules D.disk (device_of self.old) h → Gathers group (in_record ws)
            → CanBeAppended rules (view rules h) ws → Stands D.disk (device_of self.old) (device_of self.new) (IsFound rules h [] ws) (IsFound rules h [] ws) }
        ensures appended { (rules : Rules) (h : History) (ws : List Write) → HoldsHistory rules D.disk (device_of self.old) h → Gathers group (in_record ws)
            → CanBeAppended rules (view rules h) ws → OnOk result (HoldsHistory rules D.disk (device_of self.new) (h ++ ws)) }
        ensures serves { serves self.new ≡ is_ok result }
        ensures some { OnErr result (1 ≤ count_of group) }
        ensures refusal { OnErr result (result ≡ Err Fault.Device) }
        ensures cause { HasCause D.disk (device_of self.old) (device_of self.new) result }
    {
        match group.close() {
            None => Ok(()),
            Some(body) => self.append(body),
        }
    }

    // Appends the record of a group of writes. After a failure the store serves no more.
    fn append(&mut self, body: Body) -> Result<(), Fault>
        requires { serves self.old ≡ true }
        ensures paged { self.new.paged ≡ self.old.paged }
        ensures lies { LiesStill self.old self.new }
        ensures stands { (rules : Rules) (h : History) (ws : List Write) → HoldsHistory rules D.disk (device_of self.old) h → AllMayFollow rules (view rules h) ws → IsGroup ws
            → payload_of body ≡ payload ws → Stands D.disk (device_of self.old) (device_of self.new) (IsFound rules h [] ws) (IsFound rules h [] ws) }
        ensures appended { (rules : Rules) (h : History) (ws : List Write) → HoldsHistory rules D.disk (device_of self.old) h → AllMayFollow rules (view rules h) ws → IsGroup ws
            → payload_of body ≡ payload ws → OnOk result (HoldsHistory rules D.disk (device_of self.new) (h ++ ws)) }
        ensures serves { serves self.new ≡ is_ok result }
        ensures refusal { OnErr result (result ≡ Err Fault.Device) }
        ensures cause { HasCause D.disk (device_of self.old) (device_of self.new) result }
    {
        self.serves = false;
        if self.log.append(&mut self.device, body).is_err() {
            return Err(Fault::Device);
        }
        self.serves = true;
        Ok(())
    }
}
