//! Devices over files of the operating system, in the current folder.

use crate::device_lines::read_sector;
use cases::{Wrong, wanted};
use device::{CreateFault, Device, FileDevice, OpenFault, write_through};
use std::fs;
use std::fs::File;
use std::rt::Files;

// Whether a sector begins with this byte.
fn begins(device: &mut FileDevice, at: u64, with: u8) -> bool {
    match read_sector(device, at) {
        Ok(sector) => sector[0] == with,
        Err(_) => false,
    }
}

// Writes a sector and syncs, if the place is at most the length.
fn puts(device: &mut FileDevice, at: u64, with: u8) -> bool {
    match device.len() {
        Ok(len) if at <= len => write_through(device, at, &[with; 512]).is_ok(),
        _ => false,
    }
}

// Cuts to one sector.
fn shortens(device: &mut FileDevice) -> bool {
    match device.len() {
        Ok(len) if len >= 1 => device.cut(1).is_ok() && matches!(device.len(), Ok(1)),
        _ => false,
    }
}

// Why a file is not opened, if it is not.
fn open_fault<R: Files<File = File>>(rt: &R, name: &str) -> Option<OpenFault> {
    match FileDevice::open(rt, name) {
        Ok(_) => None,
        Err(fault) => Some(fault),
    }
}

// Nobody opens a file that is open.
fn is_held<R: Files<File = File>>(rt: &R, name: &str) -> bool {
    match FileDevice::create(rt, name) {
        Ok(mut device) => {
            puts(&mut device, 0, 1) && puts(&mut device, 1, 2) && open_fault(rt, name).is_some()
        }
        Err(_) => false,
    }
}

// What was written stays, and a cut shortens the file.
fn keeps_its_sectors<R: Files<File = File>>(rt: &R, name: &str) -> bool {
    match FileDevice::open(rt, name) {
        Ok(mut device) => {
            begins(&mut device, 0, 1)
                && begins(&mut device, 1, 2)
                && shortens(&mut device)
                && fs::remove_file(rt, name).is_ok()
        }
        Err(_) => false,
    }
}

// The bytes behind the last whole sector are no part of the device, and the next write overwrites them.
fn leaves_out_a_rest<R: Files<File = File>>(rt: &R, name: &str) -> bool {
    if fs::write(rt, name, [7u8; 612].as_slice()).is_err() {
        return false;
    }
    match FileDevice::open(rt, name) {
        Ok(mut device) => {
            matches!(device.len(), Ok(1))
                && puts(&mut device, 1, 8)
                && begins(&mut device, 0, 7)
                && begins(&mut device, 1, 8)
                && fs::remove_file(rt, name).is_ok()
        }
        Err(_) => false,
    }
}

// No file is made where one is, and none is opened where there is none or a folder.
fn refuses<R: Files<File = File>>(rt: &R, name: &str) -> bool {
    fs::write(rt, name, "").is_ok()
        && matches!(FileDevice::create(rt, name), Err(CreateFault::Exists))
        && matches!(open_fault(rt, "missing.device"), Some(OpenFault::Missing))
        && matches!(open_fault(rt, "."), Some(OpenFault::Device))
        && fs::remove_file(rt, name).is_ok()
}

/// Asks that devices over files of the current folder do what they say.
///
/// # Errors
///
/// Where they do otherwise.
pub fn check_files<R: Files<File = File>>(rt: &R) -> Result<(), Wrong> {
    wanted(
        is_held(rt, "kept.device")
            && keeps_its_sectors(rt, "kept.device")
            && leaves_out_a_rest(rt, "rest.device")
            && refuses(rt, "there.device"),
        "a device over a file does otherwise than it says",
    )
}
