//! A device that is read in pieces.

ghost use Rattle.device.specs.Disk.{HasCause};
ghost use Rattle.device.specs.Step.{Same};
ghost use Rattle.device.specs.Run.{Ran};
ghost use Rattle.std.specs.Prelude.{◌≡◌, ◌≤◌, ◌+◌, ◌*◌, ◌^◌, ℕ, true, None, length, take, drop, vec_len, IfOk, OnOk, IfErr, Some};

use device::{Device, DeviceFault, SECTOR};
use std::alloc::Global;

// The most sectors of a piece: 1 MiB.
const PIECE_SECTORS: u64 = 2048;

const PIECE_BYTES: usize = 1048576;

/// A device that is read in pieces of up to 1 MiB. A read that lies in the piece which was read last makes no call of the device inside, and
/// the length is asked once. Each write and each cut lets the piece and the length go.
#[derive(Drop)]
pub struct ReadAhead<D: Device> {
    device: D,
    piece: Vec<u8>,
    // Where the piece begins on the device, and how many of its sectors were read.
    first_sector: u64,
    held_sectors: u64,
    // The device's length, where it is known.
    sectors: Option<u64>,
    ghost room: { vec_len piece ≡ 1048576 },
    ghost fits: { held_sectors ≤ 2048 },
    ghost piece_read: { D.disk.keeps device
        → take (512 * held_sectors) piece.items ≡ take (512 * held_sectors) (drop (512 * first_sector) (D.disk.content device)) },
    ghost at_most: { (n : ℕ) → sectors ≡ Some n → n ≤ 2 ^ 54 },
    ghost told: { D.disk.keeps device → (n : ℕ) → sectors ≡ Some n → length (D.disk.content device) ≡ 512 * n },
}

// Fills the front of a piece with this many sectors, from a place on.
fn fill<D: Device>(
    device: &mut D,
    at: u64,
    piece: &mut [u8],
    sectors: u64,
) -> Result<(), DeviceFault>
    requires room { 512 * sectors ≤ length piece.old }
    requires inside { D.disk.keeps device.old → 512 * at + 512 * sectors ≤ length (D.disk.content device.old) }
    ensures len { length piece.new ≡ length piece.old }
    ensures front { D.disk.keeps device.old
        → OnOk result (take (512 * sectors) piece.new ≡ take (512 * sectors) (drop (512 * at) (D.disk.content device.old))) }
    ensures ran { Ran D.disk device.old device.new Same }
    ensures cause { HasCause D.disk device.old device.new result }
{
    device.read(at, &mut piece[..sectors as usize * SECTOR])
}

impl<D: Device> ReadAhead<D> {
    /// A device of which no piece was read. The memory for the piece is taken here, and no other call takes any. With a refusal the device is
    /// given back.
    pub fn new(alloc: Global, device: D) -> Result<ReadAhead<D>, D>
        ensures device { IfOk result (λ ahead. ahead.device ≡ device) }
        ensures unread { IfOk result (λ ahead. (ahead.held_sectors ≡ 0) × (ahead.sectors ≡ None)) }
        ensures refused { IfErr result (λ given. given ≡ device) }
    {
        match vec![in alloc; 0; PIECE_BYTES] {
            Ok(piece) => Ok(ReadAhead {
                device,
                piece,
                first_sector: 0,
                held_sectors: 0,
                sectors: None,
            }),
            Err(_) => Err(device),
        }
    }

    /// The device inside.
    pub fn into_device(self) -> D
        ensures { result ≡ self.device }
    {
        self.device
    }

    // Lets the piece and the length go.
    fn forget(&mut self)
        ensures device { self.new.device ≡ self.old.device }
        ensures piece { self.new.held_sectors ≡ 0 }
        ensures length { self.new.sectors ≡ None }
    {
        self.held_sectors = 0;
        self.sectors = None;
    }

    // Whether these sectors lie in the piece.
    fn has(&self, at: u64, sectors: u64) -> bool
        ensures { result ≡ true
            → (self.now.first_sector ≤ at) × (at + sectors ≤ self.now.first_sector + self.now.held_sectors) }
    {
        if at < self.first_sector {
            return false;
        }
        let before = at - self.first_sector;
        before <= self.held_sectors && sectors <= self.held_sectors - before
    }

    // Reads the piece from a sector on, as far as it has room and the device goes.
    fn bring(&mut self, at: u64) -> Result<(), DeviceFault>
        requires inside { D.disk.keeps self.old.device → 512 * at ≤ length (D.disk.content self.old.device) }
        ensures ran { Ran D.disk self.old.device self.new.device Same }
        ensures cause { HasCause D.disk self.old.device self.new.device result }
    {
        let end = self.len()?;
        let count = PIECE_SECTORS.min(end.saturating_sub(at));
        self.held_sectors = 0;
        fill(&mut self.device, at, &mut self.piece, count)?;
        self.first_sector = at;
        self.held_sectors = count;
        Ok(())
    }

    // Copies sectors that lie in the piece.
    fn copy(&self, at: u64, buffer: &mut [u8])
        requires after { self.now.first_sector ≤ at }
        requires inside { 512 * at + length buffer.old ≤ 512 * self.now.first_sector + 512 * self.now.held_sectors }
        ensures { D.disk.keeps self.now.device
            → buffer.new ≡ take (length buffer.old) (drop (512 * at) (D.disk.content self.now.device)) }
    {
        let from = (at - self.first_sector) as usize * SECTOR;
        let end = from + buffer.len();
        buffer.copy_from_slice(&self.piece[from..end]);
    }
}

impl<D: Device> Device for ReadAhead<D> {
    ghost use Rattle.gatelog.specs.ReadAhead.{ahead_disk};

    ghost disk = { ahead_disk };

    ghost whole = { λ ahead keeps. D.whole ahead.device keeps };

    ghost at_most = { λ ahead keeps. D.at_most ahead.device keeps };

    ghost counts_now = { λ ahead t c keeps le left. D.counts_now ahead.device t c keeps le left };

    ghost only_now = { λ ahead c keeps since. D.only_now ahead.device c keeps since };

    fn len(&mut self) -> Result<u64, DeviceFault> {
        if let Some(sectors) = self.sectors {
            return Ok(sectors);
        }
        let sectors = self.device.len()?;
        self.sectors = Some(sectors);
        Ok(sectors)
    }

    fn read(&mut self, at: u64, buffer: &mut [u8]) -> Result<(), DeviceFault> {
        let sectors = (buffer.len() / SECTOR) as u64;
        if sectors <= PIECE_SECTORS && !self.has(at, sectors) {
            self.bring(at)?;
        }
        if !self.has(at, sectors) {
            return self.device.read(at, buffer);
        }
        self.copy(at, buffer);
        Ok(())
    }

    fn write(&mut self, at: u64, bytes: &[u8]) -> Result<(), DeviceFault> {
        self.forget();
        self.device.write(at, bytes)
    }

    fn cut(&mut self, sectors: u64) -> Result<(), DeviceFault> {
        self.forget();
        self.device.cut(sectors)
    }

    fn sync(&mut self) -> Result<(), DeviceFault> {
        self.device.sync()
    }
}
