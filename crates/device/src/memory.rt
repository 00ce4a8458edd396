ghost use Rattle.std.specs.Prelude.{◌≡◌, ◌<◌, ◌≤◌, ◌+◌, ◌-◌, ◌*◌, ◌/◌, ◌%◌, ◌^◌, ◌⊎◌, ◌++◌, ◌==◌, ◌&&◌, ◌||◌, ℕ, List, [], Bool, true, false, not, if◌then◌else◌, length, take, drop, replicate, min, max, vec_len, slice_get, slice_index, slice_index_or, nat_le, is_ok, IsTrue, IfOk, OnOk, OnErr};

use crate::script::{Counts, Script};
use crate::sector::SECTOR;
use crate::{Device, DeviceFault};
use std::alloc::{AllocError, Global};

const MOST_SECTORS: u64 = 1 << 54;

/// What a sector that may change becomes in a crash.
#[derive(Clone, Copy)]
pub enum Pick {
    /// What the last sync left; zeros past the end that it left.
    Old,
    /// The bytes that a write gave the sector last, also a write that failed; zeros if none did.
    New,
    /// This byte throughout.
    Fill(u8),
}

/// A device in memory that can be told to fail, to stop and to crash.
#[derive(Drop)]
pub struct MemDevice {
    // what reads give, up to the length
    current: Vec<u8>,
    // what the last sync left, and zeros behind it
    synced: Vec<u8>,
    // the bytes that a write gave each sector last, also a write that failed
    latest: Vec<u8>,
    // the sectors that were written or cut away since the last sync
    unsynced: Vec<bool>,
    len: usize,
    // the least length since the last sync
    least: usize,
    // the greatest length since the last sync, and the greatest that a write reached for
    greatest: usize,
    script: Script,
    counts: Counts,
    ghost current_size: { vec_len current ≡ 512 * vec_len unsynced },
    ghost synced_size: { vec_len synced ≡ 512 * vec_len unsynced },
    ghost latest_size: { vec_len latest ≡ 512 * vec_len unsynced },
    ghost least_len: { least ≤ len },
    ghost len_greatest: { len ≤ greatest },
    ghost greatest_room: { greatest ≤ vec_len unsynced },
    ghost room: { vec_len unsynced ≤ 2 ^ 54 },
}

// Writes bytes over those at a place.
fn overwrite(bytes: &mut Vec<u8>, at: usize, with: &[u8])
    requires { at + length with.now ≤ vec_len bytes.old }
    ensures row { bytes.new.items ≡ take at bytes.old.items ++ with.now ++ drop (at + length with.now) bytes.old.items }
    ensures len { vec_len bytes.new ≡ vec_len bytes.old }
{
    bytes[at..at + with.len()].copy_from_slice(with);
}

// Writes one byte throughout a range.
fn fill(bytes: &mut Vec<u8>, at: usize, count: usize, with: u8)
    requires { at + count ≤ vec_len bytes.old }
    ensures row { bytes.new.items ≡ take at bytes.old.items ++ replicate count with ++ drop (at + count) bytes.old.items }
    ensures len { vec_len bytes.new ≡ vec_len bytes.old }
    ensures inside { (k : ℕ) → at ≤ k → k < at + count → slice_index bytes.new.items k ≡ with }
    ensures below { (k : ℕ) → k < at → slice_index bytes.new.items k ≡ slice_index bytes.old.items k }
    ensures above { (k : ℕ) → at + count ≤ k → slice_index bytes.new.items k ≡ slice_index bytes.old.items k }
{
    bytes[at..at + count].fill(with);
}

// Sets the marks in a range.
fn mark(marks: &mut Vec<bool>, at: usize, count: usize, with: bool)
    requires { at + count ≤ vec_len marks.old }
    ensures row { marks.new.items ≡ take at marks.old.items ++ replicate count with ++ drop (at + count) marks.old.items }
    ensures len { vec_len marks.new ≡ vec_len marks.old }
{
    marks[at..at + count].fill(with);
}

// The pick with this number, if there is one.
fn pick_at(picks: &[Pick], number: usize) -> Option<Pick>
    ensures { result ≡ slice_get picks.now number }
{
    picks.get(number).copied()
}

impl MemDevice {
    ghost use Rattle.device.specs.Disk.{Only};
    ghost use Rattle.device.specs.Picks.{may_change, picked};
    ghost use Rattle.device.specs.Memory.{memory, memory_content, memory_left, fresh, fits, reached, settled, found, crash_byte};

    /// An empty device with room for this many sectors.
    pub fn new(alloc: Global, room: u64) -> Result<MemDevice, AllocError>
        ensures empty { IfOk result (λ device. memory_content device ≡ []) }
        ensures settled { IfOk result (λ device. Only [] (memory_left device)) }
        ensures memory { IfOk result (λ device. memory device ≡ fresh room) }
    {
        if room > MOST_SECTORS {
            return Err(AllocError);
        }
        let sectors = room as usize;
        let bytes = sectors * SECTOR;
        Ok(MemDevice {
            current: vec![in alloc; 0; bytes]?,
            synced: vec![in alloc; 0; bytes]?,
            latest: vec![in alloc; 0; bytes]?,
            unsynced: vec![in alloc; false; sectors]?,
            len: 0,
            least: 0,
            greatest: 0,
            script: Script {
                fail_in: 0,
                stop_in: 0,
                failures: 0,
            },
            counts: Counts {
                reads: 0,
                writes: 0,
                cuts: 0,
                syncs: 0,
            },
        })
    }

    /// The n-th call from now fails, the next being the first; 0 asks for none. The failed call changes no read, but its bytes
    /// are what `Pick::New` gives.
    pub fn fail_on(&mut self, n: u64)
        ensures { memory self.new ≡ record (memory self.old) { script = record self.old.script { fail_in = n } } }
    {
        self.script.fail_in = n;
    }

    /// From the n-th call from now on all calls fail, as `fail_on` says; 0 asks for none.
    pub fn stop_on(&mut self, n: u64)
        ensures { memory self.new ≡ record (memory self.old) { script = record self.old.script { stop_in = n } } }
    {
        self.script.stop_in = n;
    }

    /// The calls since `new`, failed ones too.
    pub fn counts(&self) -> Counts
        ensures { result ≡ self.now.counts }
    {
        self.counts
    }

    // Makes bytes the latest of their sectors, if there is room for them.
    fn reach(&mut self, first: usize, bytes: &[u8]) -> bool
        requires whole { length bytes.now % 512 ≡ 0 }
        requires inside { first ≤ self.old.len }
        ensures fits { result ≡ fits first bytes.now (memory self.old) }
        ensures reached { memory self.new ≡ reached first bytes.now (memory self.old) }
        ensures script { self.new.script ≡ self.old.script }
    {
        let sectors = bytes.len() / SECTOR;
        if first + sectors > self.unsynced.len() {
            return false;
        }
        overwrite(&mut self.latest, first * SECTOR, bytes);
        mark(&mut self.unsynced, first, sectors, true);
        self.greatest = self.greatest.max(first + sectors);
        true
    }

    // Makes what reads give the content that a crash leaves.
    fn settle(&mut self)
        ensures { memory self.new ≡ settled (memory self.old) }
    {
        let end = self.len * SECTOR;
        let room = self.unsynced.len();
        overwrite(&mut self.synced, 0, &self.current[..end]);
        fill(&mut self.synced, end, (room - self.len) * SECTOR, 0);
        mark(&mut self.unsynced, 0, room, false);
        self.least = self.len;
        self.greatest = self.len;
    }

    // Gives one sector the bytes of a pick.
    fn take_pick(&mut self, sector: usize, pick: Option<Pick>)
        requires { sector < self.old.greatest }
        ensures inside { (k : ℕ) → k / 512 ≡ sector
            → slice_index self.new.current.items k
            ≡ picked pick (slice_index self.old.synced.items k) (slice_index self.old.latest.items k) }
        ensures outside { (k : ℕ) → (k / 512 ≡ sector → ⊥) → slice_index self.new.current.items k ≡ slice_index self.old.current.items k }
        ensures others { memory self.new ≡ record (memory self.old) { current = self.new.current.items } }
    {
        let at = sector * SECTOR;
        match pick {
            Some(Pick::Old) => overwrite(&mut self.current, at, &self.synced[at..at + SECTOR]),
            Some(Pick::New) => overwrite(&mut self.current, at, &self.latest[at..at + SECTOR]),
            Some(Pick::Fill(byte)) => fill(&mut self.current, at, SECTOR, byte),
            None => fill(&mut self.current, at, SECTOR, 0),
        }
    }

    // Tells whether a sector may change in a crash.
    fn may_change(&self, sector: usize) -> bool
        requires { sector < self.now.greatest }
        ensures { result ≡ may_change self.now.unsynced.items self.now.least sector }
    {
        self.unsynced[sector] || sector >= self.least
    }

    // Gives each sector below a length that may change the bytes of its pick.
    fn take_picks(&mut self, picks: &[Pick], len: usize)
        requires { len ≤ self.old.greatest }
        ensures bytes { (k : ℕ) → k < 512 * len → slice_index self.new.current.items k ≡ crash_byte (memory self.old) picks.now k }
        ensures others { memory self.new ≡ record (memory self.old) { current = self.new.current.items } }
    {
        let mut used = 0;
        for sector in 0..len {
            if self.may_change(sector) {
                self.take_pick(sector, pick_at(picks, used));
                used += 1;
            }
        }
    }

    /// What is found after a crash. Of the sectors that may change, those that were written or cut away since the last sync and
    /// those at or past the least length since then, the k-th, ascending, becomes `picks[k]`; those without a pick are zeros.
    /// The length is the one nearest to `len` of those that a crash may leave. What was asked of `fail_on` and `stop_on` is
    /// forgotten.
    pub fn crash(self, picks: &[Pick], len: u64) -> MemDevice
        ensures length { length (memory_content result) ≡ 512 * max self.least (min len self.greatest) }
        ensures bytes { (k : ℕ) → k < length (memory_content result)
            → slice_index (memory_content result) k ≡ crash_byte (memory self) picks.now k }
        ensures left { memory_left self (memory_content result) }
        ensures stays { Only (memory_content result) (memory_left result) }
        ensures memory { memory result ≡ found (memory self) (memory result).current (max self.least (min len self.greatest)) }
    {
        let mut found = self;
        let len = (len as usize).min(found.greatest).max(found.least);
        found.take_picks(picks, len);
        found.len = len;
        found.settle();
        found.script.fail_in = 0;
        found.script.stop_in = 0;
        found
    }
}

impl Device for MemDevice {
    ghost use Rattle.device.specs.MemoryLaws.{memory-whole, memory-at_most};
    ghost use Rattle.device.specs.Disk.{Only, HasCause};
    ghost use Rattle.device.specs.Step.{Holds, Same, Torn, Cut};
    ghost use Rattle.device.specs.Run.{Ran};
    ghost use Rattle.device.specs.Memory.{memory, memory_content, memory_left, memory_disk, fits, reached, written, shortened, settled, fails_next, called, one_read, one_write, one_cut, one_sync};

    ghost disk = { memory_disk };

    ghost whole = { λ device keeps. memory-whole device };

    ghost at_most = { λ device keeps. memory-at_most device };

    ghost counts_now = { λ device t c keeps le left. left };

    ghost only_now = { λ device c keeps since. since };

    fn len(&mut self) -> Result<u64, DeviceFault>
        ensures sectors { IfOk result (λ n. length (memory_content self.old) ≡ 512 * n) }
        ensures at_most { IfOk result (λ n. n ≤ 2 ^ 54) }
        ensures ran { Ran memory_disk self.old self.new Same }
        ensures cause { HasCause memory_disk self.old self.new result }
        ensures answer { is_ok result ≡ not (fails_next (memory self.old)) }
        ensures memory { memory self.new ≡ called (not (is_ok result)) (memory self.old) }
    {
        self.script.next_call(true)?;
        Ok(self.len as u64)
    }

    fn read(&mut self, at: u64, buffer: &mut [u8]) -> Result<(), DeviceFault>
        requires whole { length buffer.old % 512 ≡ 0 }
        requires inside { 512 * at + length buffer.old ≤ length (memory_content self.old) }
        ensures bytes { OnOk result (buffer.new ≡ take (length buffer.old) (drop (512 * at) (memory_content self.old))) }
        ensures ran { Ran memory_disk self.old self.new Same }
        ensures cause { HasCause memory_disk self.old self.new result }
        ensures answer { is_ok result ≡ not (fails_next (memory self.old)) }
        ensures memory { memory self.new ≡ called (not (is_ok result)) (one_read (memory self.old)) }
    {
        self.counts.reads = self.counts.reads.saturating_add(1);
        self.script.next_call(true)?;
        let start = at as usize * SECTOR;
        buffer.copy_from_slice(&self.current[start..start + buffer.len()]);
        Ok(())
    }

    fn write(&mut self, at: u64, bytes: &[u8]) -> Result<(), DeviceFault>
        requires whole { length bytes.now % 512 ≡ 0 }
        requires some { 0 < length bytes.now }
        requires inside { 512 * at ≤ length (memory_content self.old) }
        ensures written { OnOk result (Holds (memory_content self.old) (512 * at) bytes.now (memory_content self.new)) }
        ensures at_most { OnOk result (512 * at + length bytes.now ≤ 2 ^ 63) }
        ensures ran { Ran memory_disk self.old self.new (Torn (512 * at) (length bytes.now)) }
        ensures cause { HasCause memory_disk self.old self.new result }
        ensures answer { is_ok result ≡ (fits at bytes.now (memory self.old) && not (fails_next (memory self.old))) }
        ensures ok { OnOk result
            (memory self.new ≡ called false (written at bytes.now (reached at bytes.now (one_write (memory self.old))))) }
        ensures err { OnErr result (memory self.new ≡ called true (reached at bytes.now (one_write (memory self.old)))) }
    {
        self.counts.writes = self.counts.writes.saturating_add(1);
        let first = at as usize;
        let fits = self.reach(first, bytes);
        self.script.next_call(fits)?;
        overwrite(&mut self.current, first * SECTOR, bytes);
        self.len = self.len.max(first + bytes.len() / SECTOR);
        Ok(())
    }

    fn cut(&mut self, sectors: u64) -> Result<(), DeviceFault>
        requires inside { 512 * sectors ≤ length (memory_content self.old) }
        ensures shortened { OnOk result (memory_content self.new ≡ take (512 * sectors) (memory_content self.old)) }
        ensures ran { Ran memory_disk self.old self.new (Cut (512 * sectors)) }
        ensures cause { HasCause memory_disk self.old self.new result }
        ensures answer { is_ok result ≡ not (fails_next (memory self.old)) }
        ensures ok { OnOk result
            (memory self.new ≡ called false (record (shortened sectors (one_cut (memory self.old))) { len = sectors })) }
        ensures err { OnErr result (memory self.new ≡ called true (shortened sectors (one_cut (memory self.old)))) }
    {
        self.counts.cuts = self.counts.cuts.saturating_add(1);
        let sectors = sectors as usize;
        mark(&mut self.unsynced, sectors, self.len - sectors, true);
        self.least = self.least.min(sectors);
        self.script.next_call(true)?;
        self.len = sectors;
        Ok(())
    }

    fn sync(&mut self) -> Result<(), DeviceFault>
        ensures durable { OnOk result (Only (memory_content self.old) (memory_left self.new)) }
        ensures ran { Ran memory_disk self.old self.new Same }
        ensures cause { HasCause memory_disk self.old self.new result }
        ensures answer { is_ok result ≡ not (fails_next (memory self.old)) }
        ensures ok { OnOk result (memory self.new ≡ called false (settled (one_sync (memory self.old)))) }
        ensures err { OnErr result (memory self.new ≡ called true (one_sync (memory self.old))) }
    {
        self.counts.syncs = self.counts.syncs.saturating_add(1);
        self.script.next_call(true)?;
        self.settle();
        Ok(())
    }
}
