//! Writing the next generation of a store.

ghost use Rattle.std.specs.Prelude.{◌≡◌, ◌<◌, ◌≤◌, ◌+◌, ◌-◌, ◌*◌, ◌^◌, ◌⊎◌, ℕ, List, [], length, map, max, IfOk, OnOk, OnErr, IsErrOf, IsTrue};
ghost use Rattle.std.specs.FinMap.{is_sorted};
ghost use Rattle.device.specs.Disk.{HasFailed};
ghost use Rattle.device.specs.Step.{Same, Torn};
ghost use Rattle.device.specs.Run.{Ran, Stands};
ghost use Rattle.pages.specs.Page.{Entry, bytes_cmp};
ghost use Rattle.roots.specs.Root.{log_sector, MayHaveFloor};
ghost use Rattle.checkpoint.specs.Pages.{first_key, pages_of_root, IsIndex};
ghost use Rattle.checkpoint.specs.Filling.{AllFit, pages_of};
ghost use Rattle.checkpoint.specs.Index.{keys_of};
ghost use Rattle.roots.specs.Install.{IsPlace, IsNext, IsInUse};
ghost use Rattle.checkpoint.specs.Writing.{IsSource, IsWritten, IsBeforeOrWritten};
ghost use Rattle.checkpoint.specs.PageWriter.{IsFor, HasPages, end_of};

use crate::filling::{Entries, EntriesFault, first_keys};
use crate::page_writer::PageWriter;
use device::{Device, DeviceFault};
use roots::{Exhausted, Label, Root, clear_slot, install, next_root};
use std::alloc::{AllocError, Global};

/// Why the next generation is not there.
#[derive(Clone, Copy)]
pub enum WriteFault {
    /// The device failed in this call.
    Device,
    /// What lies on the device are not the entries.
    Damaged,
    /// An entry fits no page.
    TooLong,
    /// Out of memory.
    Memory,
    /// The generation in use is the last one that a root can tell, 2^64 - 1.
    Exhausted,
}

impl From<EntriesFault> for WriteFault {
    ghost use Rattle.checkpoint.specs.WriteFault.{of_entries};
    ghost use Rattle.std.specs.Prelude.{◌≡◌};

    ghost from_gives = { λ of fault. fault ≡ of_entries of };

    fn from(fault: EntriesFault) -> WriteFault {
        match fault {
            EntriesFault::Device => WriteFault::Device,
            EntriesFault::Damaged => WriteFault::Damaged,
            EntriesFault::TooLong => WriteFault::TooLong,
            EntriesFault::Memory => WriteFault::Memory,
        }
    }
}

impl From<DeviceFault> for WriteFault {
    ghost use Rattle.checkpoint.specs.declared.writing.WriteFault.TheVariants.{Device};
    ghost use Rattle.std.specs.Prelude.{◌≡◌};

    ghost from_gives = { λ _ fault. fault ≡ Device };

    fn from(_: DeviceFault) -> WriteFault {
        WriteFault::Device
    }
}

impl From<Exhausted> for WriteFault {
    ghost use Rattle.checkpoint.specs.declared.writing.WriteFault.TheVariants.{Exhausted as exhausted};
    ghost use Rattle.std.specs.Prelude.{◌≡◌};

    ghost from_gives = { λ _ fault. fault ≡ exhausted };

    fn from(_: Exhausted) -> WriteFault {
        WriteFault::Exhausted
    }
}

impl From<AllocError> for WriteFault {
    ghost use Rattle.checkpoint.specs.declared.writing.WriteFault.TheVariants.{Memory};
    ghost use Rattle.std.specs.Prelude.{◌≡◌};

    ghost from_gives = { λ _ fault. fault ≡ Memory };

    fn from(_: AllocError) -> WriteFault {
        WriteFault::Memory
    }
}

/// A generation that was written.
#[derive(Drop)]
pub struct Written {
    /// Its root, which counts.
    pub root: Root,
    /// The first key of each of its pages.
    pub first_keys: Vec<Vec<u8>>,
}

// Writes the entries on the pages that the writer is to fill, whose number an earlier walk over them told.
fn write_pages<D: Device, E: Entries>(
    device: &mut D,
    entries: &mut E,
    writer: &mut PageWriter,
) -> Result<(), WriteFault>
    requires inside { D.disk.keeps device.old → 512 * writer.old.at ≤ length (D.disk.content device.old) }
    requires none { writer.old.filled ≡ 0 }
    ensures pages { D.disk.keeps device.old → (all : List Entry) → E.gives entries.old (D.disk.content device.old) all
        → ((k : ℕ) → E.reads entries.old k → (k < 512 * writer.old.at) ⊎ (512 * end_of writer.old ≤ k))
        → IsTrue (is_sorted bytes_cmp all) → AllFit all → writer.old.page ≡ [] → writer.old.left ≡ length (pages_of all)
        → OnOk result (HasPages writer.old.at all (D.disk.content device.new)) }
    ensures damaged { D.disk.keeps device.old → (all : List Entry) → E.gives entries.old (D.disk.content device.old) all
        → ((k : ℕ) → E.reads entries.old k → (k < 512 * writer.old.at) ⊎ (512 * end_of writer.old ≤ k))
        → IsTrue (is_sorted bytes_cmp all) → AllFit all → writer.old.page ≡ [] → writer.old.left ≡ length (pages_of all)
        → IsErrOf result WriteFault.Damaged → ⊥ }
    ensures inside { D.disk.keeps device.old → OnOk result (512 * end_of writer.old ≤ length (D.disk.content device.new)) }
    ensures gives { (content : List ℕ) (all : List Entry) → E.gives entries.old content all → E.gives entries.new content all }
    ensures refusal { OnErr result (IsErrOf result WriteFault.Device ⊎ IsErrOf result WriteFault.Damaged) }
    ensures ran { Ran D.disk device.old device.new (Torn (512 * writer.old.at) (32768 * writer.old.left)) }
    ensures cause { IsErrOf result WriteFault.Device → HasFailed D.disk device.old device.new }
    ensures steady { OnOk result (D.disk.failures device.new ≡ D.disk.failures device.old) }
{
    if writer.left == 0 {
        return Ok(());
    }
    entries.rewind();
    'walk: loop {
        if !entries.advance(device)? {
            return writer.finish(device);
        }
        writer.add(device, entries.key(), entries.cell())?;
    }
}

// The root of the next generation, of as many pages as there are first keys.
fn next_of(
    current: &Root,
    last_gate_sector: u64,
    first_keys: &[Vec<u8>],
    label: Label,
) -> Result<Root, WriteFault>
    requires in_data { 8 ≤ last_gate_sector }
    requires room { last_gate_sector < 2 ^ 54 }
    ensures next { IfOk result (IsNext current.now last_gate_sector) }
    ensures place { IfOk result (λ next. IsPlace current.now.first_sector last_gate_sector next.pages next.first_sector) }
    ensures room { IfOk result (λ next. log_sector next < 2 ^ 64) }
    ensures pages { IfOk result (λ next. next.pages ≡ length first_keys.now) }
    ensures label { IfOk result (λ next. next.label ≡ label) }
    ensures exhausted { IsErrOf result WriteFault.Exhausted → current.now.generation ≡ 2 ^ 64 - 1 }
    ensures refusal { OnErr result (IsErrOf result WriteFault.Exhausted ⊎ IsErrOf result WriteFault.Memory) }
{
    match u32::try_from(first_keys.len()) {
        Ok(pages) => Ok(next_root(current, last_gate_sector, pages, label)?),
        Err(_) => Err(WriteFault::Memory),
    }
}

// Frees the other slot, writes the pages of the next root, and installs it.
fn write_generation<D: Device, E: Entries>(
    device: &mut D,
    current: &Root,
    next: &Root,
    entries: &mut E,
    writer: &mut PageWriter,
) -> Result<(), WriteFault>
    requires ready { IsFor writer.old next.now }
    requires floor { MayHaveFloor next.now.label.format next.now.label.floor }
    requires in_data { 8 ≤ next.now.first_sector }
    requires room { log_sector next.now < 2 ^ 64 }
    requires inside { D.disk.keeps device.old → 512 * next.now.first_sector ≤ length (D.disk.content device.old) }
    ensures any_moment { D.disk.keeps device.old → (last : ℕ) (all : List Entry) → IsInUse D.disk device.old current.now last
        → IsSource E.gives E.reads current.now last (D.disk.content device.old) entries.old all
        → IsNext current.now last next.now → AllFit all → next.now.pages ≡ length (pages_of all)
        → Stands D.disk device.old device.new (IsBeforeOrWritten current.now last (D.disk.content device.old) next.now.label all)
        (IsBeforeOrWritten current.now last (D.disk.content device.old) next.now.label all) }
    ensures written { D.disk.keeps device.old → (last : ℕ) (all : List Entry) → IsInUse D.disk device.old current.now last
        → IsSource E.gives E.reads current.now last (D.disk.content device.old) entries.old all
        → IsNext current.now last next.now → AllFit all → next.now.pages ≡ length (pages_of all)
        → OnOk result (Stands D.disk device.old device.new (IsBeforeOrWritten current.now last (D.disk.content device.old) next.now.label all)
        (IsWritten next.now all)) }
    ensures ok { D.disk.keeps device.old → (last : ℕ) (all : List Entry) → IsInUse D.disk device.old current.now last
        → IsSource E.gives E.reads current.now last (D.disk.content device.old) entries.old all
        → IsNext current.now last next.now → AllFit all → next.now.pages ≡ length (pages_of all)
        → OnOk result (IsInUse D.disk device.new next.now (log_sector next.now)) }
    ensures damaged { D.disk.keeps device.old → (last : ℕ) (all : List Entry) → IsInUse D.disk device.old current.now last
        → IsSource E.gives E.reads current.now last (D.disk.content device.old) entries.old all
        → IsNext current.now last next.now → AllFit all → next.now.pages ≡ length (pages_of all)
        → IsErrOf result WriteFault.Damaged → ⊥ }
    ensures front { D.disk.keeps device.old → next.now.first_sector ≡ 8
        → OnOk result (length (D.disk.content device.new) ≡ 512 * log_sector next.now + 512) }
    ensures behind { D.disk.keeps device.old → (next.now.first_sector ≡ 8 → ⊥) → OnOk result
        (length (D.disk.content device.new) ≡ max (length (D.disk.content device.old)) (512 * log_sector next.now + 512)) }
    ensures room { OnOk result (log_sector next.now < 2 ^ 54) }
    ensures gives { (content : List ℕ) (all : List Entry) → E.gives entries.old content all → E.gives entries.new content all }
    ensures refusal { OnErr result (IsErrOf result WriteFault.Device ⊎ IsErrOf result WriteFault.Damaged) }
    ensures kept { D.disk.keeps device.old → D.disk.keeps device.new }
    ensures had_kept { D.disk.keeps device.new → D.disk.keeps device.old }
    ensures count { D.disk.failures device.old ≤ D.disk.failures device.new }
    ensures cause { IsErrOf result WriteFault.Device → HasFailed D.disk device.old device.new }
    ensures steady { OnOk result (D.disk.failures device.new ≡ D.disk.failures device.old) }
{
    clear_slot(device, current)?;
    write_pages(device, entries, writer)?;
    Ok(install(device, next)?)
}

/// Writes the entries as the next generation of a store, with this label, while `current` counts and its log ends with the gate in the
/// sector `last_gate_sector`. The entries are walked twice: to count pages and take their first keys, and to write. Their pages lie off the
/// generation in use, and go to the device in runs of up to 16, each by one write. Then the new root is installed, as [`install`] does.
/// All memory is taken before the first write: 17 pages and the keys.
///
/// Until the new root's gate is opened a crash leaves the generation that was in use, and then the one or the other; after `Ok` it leaves
/// the new one, whose log is empty.
///
/// # Errors
///
/// `TooLong` where an entry fits no page, `Exhausted` where `current` is of the greatest generation, and `Memory` where there was none, as
/// for more pages than a root can tell: 2^32 - 1. Nothing is written then. `Damaged` where the device does not hold what the entries are
/// of, and so never over entries that its content gives. `Device` where the device failed: a read then finds the one or the other
/// generation, as a crash may leave it. After these two the device has to be opened again.
pub fn write<D: Device, E: Entries>(
    alloc: Global,
    device: &mut D,
    current: &Root,
    last_gate_sector: u64,
    label: Label,
    entries: &mut E,
) -> Result<Written, WriteFault>
    requires in_data { 8 ≤ last_gate_sector }
    requires room { last_gate_sector < 2 ^ 54 }
    requires floor { MayHaveFloor label.format label.floor }
    requires inside { D.disk.keeps device.old → 512 * last_gate_sector + 512 ≤ length (D.disk.content device.old) }

    // From a device on which that generation is in use, over which the source gives entries.
    ensures any_moment { D.disk.keeps device.old → (all : List Entry) → IsInUse D.disk device.old current.now last_gate_sector
        → IsSource E.gives E.reads current.now last_gate_sector (D.disk.content device.old) entries.old all
        → Stands D.disk device.old device.new (IsBeforeOrWritten current.now last_gate_sector (D.disk.content device.old) label all)
        (IsBeforeOrWritten current.now last_gate_sector (D.disk.content device.old) label all) }
    ensures written { D.disk.keeps device.old → (all : List Entry) → IsInUse D.disk device.old current.now last_gate_sector
        → IsSource E.gives E.reads current.now last_gate_sector (D.disk.content device.old) entries.old all
        → IfOk result (λ written. Stands D.disk device.old device.new
        (IsBeforeOrWritten current.now last_gate_sector (D.disk.content device.old) label all) (IsWritten written.root all)) }
    ensures ok { D.disk.keeps device.old → (all : List Entry) → IsInUse D.disk device.old current.now last_gate_sector
        → IsSource E.gives E.reads current.now last_gate_sector (D.disk.content device.old) entries.old all
        → IfOk result (λ written. IsInUse D.disk device.new written.root (log_sector written.root)) }
    ensures index { D.disk.keeps device.old → (all : List Entry) → IsInUse D.disk device.old current.now last_gate_sector
        → IsSource E.gives E.reads current.now last_gate_sector (D.disk.content device.old) entries.old all
        → IfOk result (λ written. IsIndex (keys_of written.first_keys.items) (pages_of_root written.root (D.disk.content device.new))) }

    // The root, and where the device ends.
    ensures next { IfOk result (λ written. IsNext current.now last_gate_sector written.root) }
    ensures place { IfOk result (λ written. IsPlace current.now.first_sector last_gate_sector written.root.pages written.root.first_sector) }
    ensures pages { IfOk result (λ written. written.root.pages ≡ length written.first_keys.items) }
    ensures label { IfOk result (λ written. written.root.label ≡ label) }
    ensures room { IfOk result (λ written. log_sector written.root < 2 ^ 54) }
    ensures front { D.disk.keeps device.old → IfOk result (λ written. written.root.first_sector ≡ 8
        → length (D.disk.content device.new) ≡ 512 * log_sector written.root + 512) }
    ensures behind { D.disk.keeps device.old → IfOk result (λ written. (written.root.first_sector ≡ 8 → ⊥)
        → length (D.disk.content device.new) ≡ max (length (D.disk.content device.old)) (512 * log_sector written.root + 512)) }

    // Each fault where it belongs.
    ensures memory { IsErrOf result WriteFault.Memory → Ran D.disk device.old device.new Same }
    ensures too_long { IsErrOf result WriteFault.TooLong → Ran D.disk device.old device.new Same }
    ensures exhausted { IsErrOf result WriteFault.Exhausted → Ran D.disk device.old device.new Same }
    ensures greatest { IsErrOf result WriteFault.Exhausted → current.now.generation ≡ 2 ^ 64 - 1 }
    ensures fits { D.disk.keeps device.old → (all : List Entry) → E.gives entries.old (D.disk.content device.old) all
        → IsErrOf result WriteFault.TooLong → AllFit all → ⊥ }
    ensures damaged { D.disk.keeps device.old → (all : List Entry) → IsInUse D.disk device.old current.now last_gate_sector
        → IsSource E.gives E.reads current.now last_gate_sector (D.disk.content device.old) entries.old all
        → IsErrOf result WriteFault.Damaged → ⊥ }
    ensures cause { IsErrOf result WriteFault.Device → HasFailed D.disk device.old device.new }
    ensures steady { OnOk result (D.disk.failures device.new ≡ D.disk.failures device.old) }
    ensures unfailed { IsErrOf result WriteFault.Memory ⊎ IsErrOf result WriteFault.Exhausted → D.disk.failures device.new ≡ D.disk.failures device.old }

    ensures gives { (content : List ℕ) (all : List Entry) → E.gives entries.old content all → E.gives entries.new content all }
    ensures kept { D.disk.keeps device.old → D.disk.keeps device.new }
    ensures had_kept { D.disk.keeps device.new → D.disk.keeps device.old }
    ensures count { D.disk.failures device.old ≤ D.disk.failures device.new }
{
    let first_keys = first_keys(alloc, device, entries)?;
    let root = next_of(current, last_gate_sector, &first_keys, label)?;
    let mut writer = PageWriter::new(alloc, &root)?;
    write_generation(device, current, &root, entries, &mut writer)?;
    Ok(Written { root, first_keys })
}
