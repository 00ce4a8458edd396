//! The command that checks a store.

ghost use Rattle.std.specs.Prelude.{◌≡◌, ◌≢◌, ◌⊎◌, None, IfOk, IfSome, OnOk, OnErr, IsErrOf};
ghost use Rattle.durable.specs.declared.fault.Damage.{Damage as DamageData};
ghost use Rattle.durable.specs.declared.fault.Fault.TheVariants as FaultData;
ghost use Rattle.store.specs.Upkeep.{KeepsHistory};
ghost use Rattle.gated.specs.Doing.{HasFound};
ghost use Rattle.gated.specs.Left.{HasLeft};
ghost use Rattle.gated.specs.Telling.{EndsCheck, HasLine, checked_text, damaged_text};

use crate::problem::{Problem, print};
use crate::status::Status;
use std::alloc::Global;
use store::{
    Checked, Damage, Device, Fault, Output, Place, Storage, check as check_store, damaged_place,
};

/// What is found of a store.
#[derive(Drop)]
pub enum Looked {
    /// All of it is whole.
    Whole(Checked),
    /// Some part of it is damaged, at this place, where that was found.
    Damaged(Damage, Option<Place>),
}

// The damage that a fault tells.
fn damage_in(fault: &Fault) -> Option<Damage>
    ensures some { IfSome result (λ damage. fault.now ≡ FaultData.Damaged damage) }
    ensures none { result ≡ None → (damage : DamageData) → fault.now ≢ FaultData.Damaged damage }
{
    match *fault {
        Fault::Damaged(damage) => Some(damage),
        Fault::Device | Fault::Memory | Fault::Failed | Fault::Exhausted => None,
    }
}

// What is found of the store in a file.
fn look<D: Device, S: Storage<D>>(storage: &S, alloc: Global, file: &str) -> Result<Looked, Problem>
    ensures found { IfOk result (HasFound D.disk S.made S.opened S.closed storage.now file.now) }
    ensures left { OnErr result (HasLeft D.disk S.missed S.opened S.closed storage.now file.now (λ rules old new h. KeepsHistory rules D.disk old new h)) }
    ensures no_file_made { IsErrOf result Problem.FileExists → ⊥ }
    ensures no_stream { IsErrOf result Problem.StreamFailed → ⊥ }
    ensures no_damage { (damage : DamageData) → IsErrOf result (Problem.Damaged damage) → ⊥ }
{
    let device = storage.open(file)?;
    match check_store(alloc, device) {
        Ok((checked, device)) => {
            storage.close(file, device);
            Ok(Looked::Whole(checked))
        }
        Err((fault, device)) => match damage_in(&fault) {
            Some(damage) => {
                let mut damaged = device;
                let place = damaged_place(alloc, &mut damaged, damage);
                storage.close(file, damaged);
                Ok(Looked::Damaged(damage, place))
            }
            None => {
                storage.close(file, device);
                Err(Problem::from(fault))
            }
        },
    }
}

// Tells of a store that is whole.
fn print_checked<O: Output>(alloc: Global, checked: &Checked, output: &mut O) -> Result<(), Problem>
    ensures line { OnOk result (HasLine O.took output.old output.new (checked_text checked.now)) }
    ensures refusal { OnErr result (IsErrOf result Problem.StreamFailed ⊎ IsErrOf result Problem.OutOfMemory) }
{
    let Checked {
        revision,
        objects,
        generation,
        format,
    } = *checked;
    let number = format.number();
    match format!(in alloc;
        "ok: format {number}, revision {revision}, objects {objects}, generation {generation}"
    ) {
        Ok(line) => print(output, line.as_str()),
        Err(_) => Err(Problem::OutOfMemory),
    }
}

// Tells of damage, and in a second line of its place, where that is known.
fn print_damaged<O: Output>(
    alloc: Global,
    damage: Damage,
    place: &Option<Place>,
    output: &mut O,
) -> Result<(), Problem>
    ensures lines { OnOk result (HasLine O.took output.old output.new (damaged_text damage place.now)) }
    ensures refusal { OnErr result (IsErrOf result Problem.StreamFailed ⊎ IsErrOf result Problem.OutOfMemory) }
{
    let damaged = Problem::Damaged(damage).text();
    let Some(place) = place else {
        return print(output, damaged);
    };
    let Ok(place) = place.text(alloc) else {
        return Err(Problem::OutOfMemory);
    };
    match format!(in alloc; "{damaged}\n{place}") {
        Ok(lines) => print(output, lines.as_str()),
        Err(_) => Err(Problem::OutOfMemory),
    }
}

/// Tells on the output whether the store in a file is whole, or what of it is damaged and where, and says how the program ends.
///
/// # Errors
///
/// Those of an opening that say nothing of damage, `StreamFailed` where the output failed, and `OutOfMemory`.
pub fn check<D: Device, S: Storage<D>, O: Output>(
    storage: &S,
    alloc: Global,
    file: &str,
    output: &mut O,
) -> Result<Status, Problem>
    ensures ends { IfOk result (λ status. EndsCheck D.disk S.made S.opened S.closed O.took storage.now output.old output.new file.now status) }
    ensures left { OnErr result (HasLeft D.disk S.missed S.opened S.closed storage.now file.now (λ rules old new h. KeepsHistory rules D.disk old new h)) }
    ensures no_file_made { IsErrOf result Problem.FileExists → ⊥ }
    ensures no_damage { (damage : DamageData) → IsErrOf result (Problem.Damaged damage) → ⊥ }
{
    match look(storage, alloc, file)? {
        Looked::Whole(checked) => {
            print_checked(alloc, &checked, output)?;
            Ok(Status::Success)
        }
        Looked::Damaged(damage, place) => {
            print_damaged(alloc, damage, &place, output)?;
            Ok(Status::NoStore)
        }
    }
}
