//! A connection, served.

ghost use Rattle.std.specs.Prelude.{◌≡◌, ◌≢◌, ◌<◌, ◌⊎◌, [], length, true, false, None, IfOk, OnOk, IsErrOf, MatchResult};
ghost use Rattle.names.specs.declared.format.Rules.{Rules};
ghost use Rattle.decoded.specs.Standing.{View};
ghost use Rattle.durable.specs.Settled.{device_of, serves};
ghost use Rattle.durable.specs.declared.fault.Damage.{Damage as DamageData};
ghost use Rattle.objects.specs.Failing.{HasGrown};
ghost use Rattle.api.specs.Answers.{ShowsAt, RefusesLast};
ghost use Rattle.api.specs.Serving.{HasEnded, HasReadSome, HasWrittenSome, HasFailed, HasLackedMemory, HasStopped, HasAllCauses, Exchanged};

use crate::fault::ServeFault;
use crate::piece::{Connection, Step, next_step};
use device::Device;
use durable::Store;
use httpmsg::{End, Input, Output};
use routes::write_no_more;
use std::alloc::{AllocError, Global};

/// How many bytes are read at once, at most.
const BUFFER_BYTES: usize = 8192;

fn new_buffer(alloc: Global) -> Result<Vec<u8>, AllocError>
    ensures { IfOk result (λ buffer. length buffer.items ≡ 8192) }
{
    vec![in alloc; 0; BUFFER_BYTES]
}

// Reads and answers piece after piece, to the end of the stream.
fn serve_pieces<I: Input, O: Output, D: Device>(
    alloc: Global,
    mut connection: Connection,
    buffer: &mut [u8],
    input: &mut I,
    output: &mut O,
    store: &mut Store<D>,
) -> Result<End, ServeFault>
    requires fresh { connection.cutter ≡ record { pending = []; end = None } }
    requires buffer { length buffer.old ≡ 8192 }
    ensures outcome { (rules : Rules) (v : View) → ShowsAt rules store.old v → MatchResult result
        (λ end. Exchanged I.gave O.took input.old input.new output.old output.new
        (λ read written. HasEnded rules store.old store.new v read written (I.has_ended input.new) end))
        (λ fault. Exchanged I.gave O.took input.old input.new output.old output.new
        (HasStopped rules store.old store.new v (O.failures output.old) (O.failures output.new) fault)) }
    ensures damage_told { (damage : DamageData) → IsErrOf result (ServeFault.Damaged damage) → RefusesLast O.took O.failures output.old output.new }
    ensures causes { HasAllCauses (I.failures input.old) (I.failures input.new) (O.failures output.old) (O.failures output.new)
        (D.disk.failures (device_of store.old)) (D.disk.failures (device_of store.new)) (serves store.old) (serves store.new) result }
{
    let mut count = 0;
    for _ in 0..u64::MAX {
        match next_step(alloc, &mut connection, buffer, count, input, output, store) {
            Ok(Step::Feed(more)) => count = more,
            Ok(Step::Finish) => return connection.finish(output),
            Ok(Step::End(end)) => {
                drop(connection);
                return Ok(end);
            }
            Err(fault) => {
                drop(connection);
                return Err(fault);
            }
        }
    }
    // No connection gives that many pieces.
    let written = write_no_more(output, &mut connection.sheet);
    drop(connection);
    match written {
        Ok(()) => Err(ServeFault::Memory),
        Err(_) => Err(ServeFault::Write),
    }
}

/// Serves a connection: reads its messages, and answers those of a read in groups. The replies to a group are written before the next
/// group is applied.
///
/// # Errors
///
/// `Read` and `Write` where the input or the output failed: the store holds all that was applied. `Device` where the store's
/// device failed, and `Failed` where it had failed before. `Damaged` where what was read of the store's device is damaged, and never of a
/// store that shows a view. `Memory` where it was refused before the first read, and then nothing changed, or to further bytes of the
/// input. To a single message it is no fault: that message is refused, and the connection goes on.
pub fn serve<I: Input, O: Output, D: Device>(
    alloc: Global,
    input: &mut I,
    output: &mut O,
    store: &mut Store<D>,
) -> Result<End, ServeFault>
    ensures ended { (rules : Rules) (v : View) → ShowsAt rules store.old v → IfOk result (λ end. Exchanged I.gave O.took input.old input.new output.old output.new
        (λ read written. HasEnded rules store.old store.new v read written (I.has_ended input.new) end)) }
    ensures read { (rules : Rules) (v : View) → ShowsAt rules store.old v → IsErrOf result ServeFault.Read
        → Exchanged I.gave O.took input.old input.new output.old output.new (HasReadSome rules store.old store.new v) }
    ensures write { (rules : Rules) (v : View) → ShowsAt rules store.old v → IsErrOf result ServeFault.Write
        → Exchanged I.gave O.took input.old input.new output.old output.new (HasWrittenSome rules store.old store.new v) }

    // Also of a store that had failed.
    ensures device { (rules : Rules) (v : View) → ShowsAt rules store.old v → IsErrOf result ServeFault.Device ⊎ IsErrOf result ServeFault.Failed
        → Exchanged I.gave O.took input.old input.new output.old output.new
        (λ read written. HasFailed rules store.old store.new v read written (O.failures output.old) (O.failures output.new)) }

    // Nothing was read, written or changed, or memory was refused to further bytes.
    ensures memory { (rules : Rules) (v : View) → ShowsAt rules store.old v → IsErrOf result ServeFault.Memory
        → ((input.new ≡ input.old) × (output.new ≡ output.old) × (store.new ≡ store.old))
        ⊎ Exchanged I.gave O.took input.old input.new output.old output.new (HasLackedMemory rules store.old store.new v) }

    // Of no store that shows a view, and the store has stopped then.
    ensures never_damaged { (rules : Rules) (v : View) → ShowsAt rules store.old v → (damage : DamageData) → result ≢ Err (ServeFault.Damaged damage) }
    ensures damaged { (damage : DamageData) → IsErrOf result (ServeFault.Damaged damage) → (serves store.old ≡ true) × (serves store.new ≡ false) }

    // It is told: the last that is written is that the storage failed.
    ensures damage_told { (damage : DamageData) → IsErrOf result (ServeFault.Damaged damage) → RefusesLast O.took O.failures output.old output.new }

    ensures failed { IsErrOf result ServeFault.Failed → serves store.old ≡ false }

    // An input that failed is not read on, and where the stream was served to its end no reply failed.
    ensures read_well { result ≢ Err ServeFault.Read → I.failures input.new ≡ I.failures input.old }
    ensures write_well { OnOk result (O.failures output.new ≡ O.failures output.old) }

    ensures read_cause { IsErrOf result ServeFault.Read → HasGrown (I.failures input.old) (I.failures input.new) }
    ensures write_cause { IsErrOf result ServeFault.Write → HasGrown (O.failures output.old) (O.failures output.new) }
    ensures device_cause { IsErrOf result ServeFault.Device
        → HasGrown (D.disk.failures (device_of store.old)) (D.disk.failures (device_of store.new)) }
{
    let (connection, mut buffer) = match tools(alloc) {
        Ok(tools) => tools,
        Err(AllocError) => return Err(ServeFault::Memory),
    };
    serve_pieces(alloc, connection, &mut buffer, input, output, store)
}

// All that serving a connection needs memory for.
fn tools(alloc: Global) -> Result<(Connection, Vec<u8>), AllocError>
    ensures fresh { IfOk result (λ tools. tools.0.cutter ≡ record { pending = []; end = None }) }
    ensures buffer { IfOk result (λ tools. length tools.1.items ≡ 8192) }
{
    Ok((Connection::new(alloc)?, new_buffer(alloc)?))
}
