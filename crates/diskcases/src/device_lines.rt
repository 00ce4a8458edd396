//! Lines on a device in memory.

use crate::line::Line;
use crate::notation::byte;
use cases::{Wrong, first_word, number};
use device::{Device, DeviceFault, MemDevice, Pick};
use std::alloc::Global;

/// `device ROOM`: an empty device with room for this many sectors.
pub fn new_device(alloc: Global, device: &mut MemDevice, line: &mut Line<'_>) {
    match MemDevice::new(alloc, line.number()) {
        Ok(empty) => {
            *device = empty;
            line.answer.word("ok");
        }
        Err(_) => line.fail(Wrong::Memory),
    }
}

/// `len`: the length.
pub fn length(device: &mut MemDevice, line: &mut Line<'_>) {
    match device.len() {
        Ok(sectors) => line.show(&sectors),
        Err(fault) => line.show(&fault),
    }
}

// Writes a byte throughout one to three sectors, if the place is at most the length. The length is not asked at place 0.
fn write(device: &mut MemDevice, at: u64, count: u64, with: u8) -> Result<(), DeviceFault> {
    let len = if at == 0 { 0 } else { device.len()? };
    if at > len {
        return Err(DeviceFault);
    }
    match count {
        1 => device.write(at, &[with; 512]),
        2 => device.write(at, &[with; 1024]),
        _ => device.write(at, &[with; 1536]),
    }
}

// Cuts to a length, if it is at most the length. That is not asked for 0.
fn cut(device: &mut MemDevice, sectors: u64) -> Result<(), DeviceFault> {
    let len = if sectors == 0 { 0 } else { device.len()? };
    if sectors > len {
        return Err(DeviceFault);
    }
    device.cut(sectors)
}

/// One call of a device: `write AT COUNT BYTE`, the byte as a number, `cut SECTORS`, `sync`, `len`, or `read`, of no bytes.
pub fn call(device: &mut MemDevice, line: &mut Line<'_>) -> Result<(), DeviceFault> {
    match line.word() {
        "write" => {
            let (at, count) = (line.number(), line.number());
            write(device, at, count, line.byte())
        }
        "cut" => cut(device, line.number()),
        "sync" => device.sync(),
        "len" => match device.len() {
            Ok(_) => Ok(()),
            Err(fault) => Err(fault),
        },
        "read" => device.read(0, &mut []),
        _ => {
            line.refuse("no call of a device");
            Ok(())
        }
    }
}

/// `CALL; CALL; ..`: whether each of them succeeds, in turn: `+` or `-`.
pub fn tries(alloc: Global, device: &mut MemDevice, line: &mut Line<'_>) {
    for one in &line.parts(alloc, line.rest, "; ") {
        line.rest = *one;
        let done = call(device, line);
        line.answer.push(if done.is_ok() { "+" } else { "-" });
    }
}

/// A sector, or zeros where there is none.
pub fn read_sector<D: Device>(device: &mut D, at: u64) -> Result<[u8; 512], DeviceFault> {
    let mut buffer = [0; 512];
    if at < device.len()? {
        device.read(at, &mut buffer)?;
    }
    Ok(buffer)
}

/// The first byte of each sector.
pub fn firsts(device: &mut MemDevice, line: &mut Line<'_>) {
    let sectors = match device.len() {
        Ok(0) => return line.answer.word("none"),
        Ok(sectors) => sectors,
        Err(fault) => return line.show(&fault),
    };
    for at in 0..sectors {
        match read_sector(device, at) {
            Ok(sector) => line.answer.spell(&[sector[0]]),
            Err(fault) => return line.show(&fault),
        }
    }
}

/// The bytes up to the last that is not zero.
pub(crate) fn without_zeros(sector: &[u8; 512]) -> &[u8] {
    let mut end = 0;
    for (place, byte) in sector.iter().enumerate() {
        if *byte != 0 {
            end = place + 1;
        }
    }
    sector.get(..end).unwrap_or(&[])
}

/// The bytes of a sector up to its last that is not zero.
pub fn sector(device: &mut MemDevice, line: &mut Line<'_>) {
    let Ok(found) = read_sector(device, line.number()) else {
        return line.answer.word("device failed");
    };
    match without_zeros(&found) {
        [] => line.answer.word("zeros"),
        bytes => line.answer.spell(bytes),
    }
}

/// How many reads, writes, cuts and syncs the device was asked for.
pub fn counts(device: &MemDevice, line: &mut Line<'_>) {
    let counts = device.counts();
    for count in [counts.reads, counts.writes, counts.cuts, counts.syncs] {
        line.show(&count);
    }
}

/// `LENGTH PICK ..`: adds the picks, each `old`, `new` or a byte, and gives the length, a number, or `all` that there may be.
///
/// # Errors
///
/// Where a word is none of these, or out of memory.
pub fn crash_words(line: &str, picks: &mut Vec<Pick>) -> Result<u64, Wrong> {
    let (length, words) = first_word(line);
    for word in words.split_whitespace() {
        picks.push(match word {
            "old" => Pick::Old,
            "new" => Pick::New,
            _ => Pick::Fill(byte(word)?),
        })?;
    }
    match length {
        "all" => Ok(u64::MAX),
        _ => number(length),
    }
}

/// `crash LENGTH PICK ..`: the machine stops. What may change becomes what the picks say, and the length the one that is told.
pub fn crash(alloc: Global, device: &mut MemDevice, line: &mut Line<'_>) {
    let mut picks = Vec::new(alloc);
    let length = match crash_words(line.rest, &mut picks) {
        Ok(length) => length,
        Err(wrong) => return line.fail(wrong),
    };
    match MemDevice::new(alloc, 0) {
        Ok(room) => {
            let stopped = std::mem::replace(device, room);
            *device = stopped.crash(&picks, length);
            line.answer.word("ok");
        }
        Err(_) => line.fail(Wrong::Memory),
    }
}
