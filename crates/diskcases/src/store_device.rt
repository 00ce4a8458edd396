//! Lines on the device of a store that is shut.

use crate::device_lines::{counts, length, new_device, read_sector, without_zeros};
use crate::line::Line;
use crate::log_lines::LogLines;
use crate::notation::byte;
use device::{Device, DeviceFault, MemDevice};
use std::alloc::Global;

const LOG_START: u64 = 8;

/// Overwrites a sector, if it is there.
pub fn put(device: &mut MemDevice, at: u64, with: &[u8; 512]) -> Result<(), DeviceFault> {
    if at >= device.len()? {
        return Err(DeviceFault);
    }
    device.write(at, with)
}

// Overwrites bytes of a sector from a place on, if they are there.
fn change(device: &mut MemDevice, at: u64, from: usize, with: &[u8]) -> Result<(), DeviceFault> {
    let mut found = read_sector(device, at)?;
    for (place, byte) in with.iter().enumerate() {
        match found.get_mut(from.saturating_add(place)) {
            Some(old) => *old = *byte,
            None => return Err(DeviceFault),
        }
    }
    put(device, at, &found)
}

// `put SECTOR BYTE`: fills a sector.
fn put_line(device: &mut MemDevice, line: &mut Line<'_>) {
    let at = line.number();
    match byte(line.rest) {
        Ok(byte) => {
            let done = put(device, at, &[byte; 512]);
            line.ended(done);
        }
        Err(wrong) => line.fail(wrong),
    }
}

// `change SECTOR PLACE BYTES`: overwrites bytes of a sector.
fn change_line(alloc: Global, device: &mut MemDevice, line: &mut Line<'_>) {
    let (at, from) = (line.number(), line.number());
    let with = line.payload(alloc, line.rest);
    line.ended(change(device, at, from as usize, &with));
}

// `noise BYTE`: fills the nine sectors of a new store.
fn noise(device: &mut MemDevice, line: &mut Line<'_>) {
    match byte(line.rest) {
        Ok(byte) => {
            let done = device.write(0, &[byte; 4608]);
            line.ended(done);
        }
        Err(wrong) => line.fail(wrong),
    }
}

// `append PAYLOAD`: appends a record to the log of a store.
fn append(alloc: Global, device: &mut MemDevice, line: &mut Line<'_>) {
    let mut log = LogLines { log: None };
    match log.open(device, LOG_START) {
        Ok(()) => log.append_payload(alloc, device, line),
        Err(fault) => line.answer.show(&fault),
    }
}

// `sector SECTOR`: its bytes up to the last that is not zero, or `BYTE throughout`.
fn sector(device: &mut MemDevice, line: &mut Line<'_>) {
    let at = line.number();
    let mut found = [0; 512];
    let is_read = at < device.len().unwrap_or(0) && device.read(at, &mut found).is_ok();
    if !is_read {
        return line.refuse("there is no such sector");
    }
    if found == [found[0]; 512] {
        line.answer.spell(&[found[0]]);
        return line.answer.word("throughout");
    }
    line.answer.spell(without_zeros(&found));
}

/// Answers a line on the device of a store that is shut, after its word. The bench of devices hands on what is no line of its own.
pub fn on_store_device(alloc: Global, device: &mut MemDevice, word: &str, line: &mut Line<'_>) {
    match word {
        "device" => new_device(alloc, device, line),
        "fail" => {
            device.fail_on(line.number());
            line.answer.word("ok");
        }
        "stop" => {
            device.stop_on(line.number());
            line.answer.word("ok");
        }
        "sectors" => length(device, line),
        "sector" => sector(device, line),
        "calls" => counts(device, line),
        "put" => put_line(device, line),
        "change" => change_line(alloc, device, line),
        "noise" => noise(device, line),
        "append" => append(alloc, device, line),
        _ => line.refuse("no such line"),
    }
}
