//! The whole way, from the bytes of requests to the bytes of replies and to what stands on the device.

ghost use Rattle.std.specs.Prelude.{◌≡◌, IfOk, IfErr};
ghost use Rattle.names.specs.declared.format.Rules.{Rules};
ghost use Rattle.objects.specs.Failing.{HasGrown};
ghost use Rattle.decoded.specs.Standing.{History};
ghost use Rattle.durable.specs.Ready.{HoldsHistory};
ghost use Rattle.api.specs.Serving.{Exchanged};
ghost use Rattle.store.specs.Whole.{HasAnswered, HasEndedEarly, IsCaused, IsUndamaged, WasServed, HasEndedAt, HasStoppedAt, IfOpening, IfServing};

use crate::fault::AnswerFault;
use api::serve;
use device::Device;
use durable::Store;
use httpmsg::{Input, Output};
use std::alloc::Global;

/// Opens the store on a device, answers the requests of an input to their end, and gives the device back.
///
/// # Errors
///
/// `Opening` where no store was opened: nothing was read or written then. `Serving` where one was. Each tells what failed in this call: the input, the output
/// or the device, out of memory, or what was read of the device, which was damaged. Of a device that holds a history damage is never told; it then
/// holds each write of the requests that were answered, and perhaps some of those at which it failed.
pub fn answer<D: Device, I: Input, O: Output>(
    alloc: Global,
    device: D,
    input: &mut I,
    output: &mut O,
) -> Result<D, (AnswerFault, D)>
    ensures answered { (rules : Rules) (h : History) → HoldsHistory rules D.disk device h
        → IfOk result (λ left. Exchanged I.gave O.took input.old input.new output.old output.new
        (HasAnswered rules D.disk device left h (I.has_ended input.new))) }
    ensures ended_early { (rules : Rules) (h : History) → HoldsHistory rules D.disk device h
        → IfErr result (λ e. Exchanged I.gave O.took input.old input.new output.old output.new
        (HasEndedEarly rules D.disk device e.1 h (HasGrown (D.disk.failures device) (D.disk.failures e.1)) (HasGrown (O.failures output.old) (O.failures output.new)))) }
    ensures undamaged { (rules : Rules) (h : History) → HoldsHistory rules D.disk device h → IfErr result (λ e. IsUndamaged e.0) }

    // By the fault that is told, and with the store between. The clause only says that there is such a store: what pins it is a history that the device holds.
    ensures served { IfOk result (λ left. WasServed ⟦<D as Device>⟧ device left (λ opened served rules v.
        HasEndedAt I.gave O.took input.old input.new output.old output.new opened served rules v (I.has_ended input.new))) }
    ensures stopped { IfErr result (λ e. IfServing e.0 (λ f. WasServed ⟦<D as Device>⟧ device e.1 (λ opened served rules v.
        HasStoppedAt I.gave O.took input.old input.new output.old output.new opened served rules v O.failures f))) }

    // Whatever the device.
    ensures caused { IfErr result (λ e. IsCaused e.0 (HasGrown (D.disk.failures device) (D.disk.failures e.1))
        (HasGrown (I.failures input.old) (I.failures input.new)) (HasGrown (O.failures output.old) (O.failures output.new))) }
    ensures unread { IfErr result (λ e. IfOpening e.0 (λ _. (input.new ≡ input.old) × (output.new ≡ output.old))) }
{
    let mut store = match Store::open(alloc, device) {
        Ok(store) => store,
        Err((fault, device)) => return Err((AnswerFault::Opening(fault), device)),
    };
    match serve(alloc, input, output, &mut store) {
        Ok(_) => Ok(store.into_device()),
        Err(fault) => Err((AnswerFault::Serving(fault), store.into_device())),
    }
}
