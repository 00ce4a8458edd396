//! The writes of a group of requests, gathered for one record.

ghost use Rattle.std.specs.Prelude.{◌≡◌, ◌<◌, ◌≤◌, ◌+◌, ◌++◌, ℕ, List, Some, OnOk, OnErr};
ghost use Rattle.histories.specs.History.{Write as Recorded};
ghost use Rattle.records.specs.Gathered.{Gathers, count_of};
ghost use Rattle.records.specs.Payload.{group_limit};
ghost use Rattle.durable.specs.declared.fault.Fault.TheVariants as Fault;
ghost use Rattle.durable.specs.Gathered.{prepared_in_record};

use crate::Fault;
use decoded::Decoded;
use expressions::plans_bytes;
use gatelog::LogFault;
use holdings::PreparedWrite;
use records::Group;
use std::alloc::Global;

/// Gathers a write, if there is one. Where memory is refused the group stays as it was.
pub(crate) fn gather(
    alloc: Global,
    group: &mut Group,
    write: &Option<PreparedWrite<Decoded>>,
) -> Result<(), Fault>
    requires { count_of group.old < group_limit }
    ensures gathered { (ws : List (Recorded (List ℕ))) → Gathers group.old ws → OnOk result (Gathers group.new (ws ++ prepared_in_record write.now)) }
    ensures same { (ws : List (Recorded (List ℕ))) → Gathers group.old ws → OnErr result (Gathers group.new ws) }
    ensures uncounted { OnErr result (count_of group.new ≡ count_of group.old) }
    ensures refusal { OnErr result (result ≡ Err Fault.Memory) }
    ensures count { count_of group.new ≤ count_of group.old + 1 }
{
    let Some(write) = write else {
        return Ok(());
    };
    match add(alloc, group, write) {
        Ok(()) => Ok(()),
        // Texts within the limit are never too long for a record, so the cause is out of memory.
        Err(_) => Err(Fault::Memory),
    }
}

// Adds a write to a group.
fn add(alloc: Global, group: &mut Group, write: &PreparedWrite<Decoded>) -> Result<(), LogFault>
    requires { count_of group.old < group_limit }
    ensures added { (ws : List (Recorded (List ℕ))) → Gathers group.old ws
        → OnOk result (Gathers group.new (ws ++ prepared_in_record (Some write.now))) }
    ensures same { (ws : List (Recorded (List ℕ))) → Gathers group.old ws → OnErr result (Gathers group.new ws) }
    ensures uncounted { OnErr result (count_of group.new ≡ count_of group.old) }
    ensures count { count_of group.new ≤ count_of group.old + 1 }
{
    match write {
        PreparedWrite::Put(put) => {
            let plans = match plans_bytes(alloc, put.key().resource(), put.beside().plans()) {
                Ok(plans) => plans,
                // Plans that may be held are never too long, so the cause is out of memory.
                Err(_) => return Err(LogFault::Memory),
            };
            group.put(alloc, put.key(), put.text(), &plans)
        }
        PreparedWrite::Delete(deletion) => group.delete(alloc, deletion.key()),
    }
}
