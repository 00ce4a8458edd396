//! Where devices are found by name.

ghost use Rattle.std.specs.Prelude.{ℕ, List, Option, IfOk, OnErr};
ghost use Rattle.store.specs.declared.cause.Cause.{Cause as CauseData};

use crate::cause::Cause;
use device::{CreateFault, Device, FileDevice, OpenFault};
use std::cell::Cell;
use std::fs::{File, OpenOptions, TryLockError, remove_file};
use std::io;
use std::rt::Files;

/// Where devices are found by name, as files are in a file system.
///
/// `made` and `opened` say of a device that it was handed out for a name, `closed` and `discarded` that it was given back, `missed` that none was handed out, and
/// `caused` what is known of why. Only the calls of a storage can say so. A contract that asks for them therefore speaks of the device behind that name: as it was before any other call of it, and as
/// the last call left it.
pub trait Storage<D: Device> {
    /// This device was made under a name.
    ghost made: { Self → List ℕ → D → Type 0 };

    /// This device was found under a name.
    ghost opened: { Self → List ℕ → D → Type 0 };

    /// This device, in this state, was given back under a name.
    ghost closed: { Self → List ℕ → D → Type 0 };

    /// This device, in this state, was given back, and its name was to be removed.
    ghost discarded: { Self → List ℕ → D → Type 0 };

    /// No device was made, or found, under a name.
    ghost missed: { Self → List ℕ → Type 0 };

    /// This is known of why no device was made, or found, under a name, or of why the one that was given back had failed.
    ghost caused: { Self → List ℕ → Option CauseData → Type 0 };

    /// Makes a device without a sector under a name.
    fn create(&self, name: &str) -> Result<D, CreateFault>
        ensures made { IfOk result (λ device. made self.now name.now device) }
        ensures missed { OnErr result (missed self.now name.now) };

    /// The device under a name.
    fn open(&self, name: &str) -> Result<D, OpenFault>
        ensures opened { IfOk result (λ device. opened self.now name.now device) }
        ensures missed { OnErr result (missed self.now name.now) };

    /// Removes the name of a device that was made just now and holds nothing, and gives the device back. A name that cannot be removed stays.
    fn discard(&self, name: &str, device: D)
        ensures discarded { discarded self.now name.now device };

    /// Gives the device under a name back, after which nobody calls it.
    fn close(&self, name: &str, device: D)
        ensures closed { closed self.now name.now device };

    /// Why no device was made, or found, under a name, or why the one that was given back had failed, as far as it is known.
    fn cause(&self, name: &str) -> Option<Cause>
        ensures caused { caused self.now name.now result };
}

/// The files of the operating system. No contract of it says what a file holds, so that a device was made or opened says only that it has not failed, and that it was closed or discarded, that there is
/// none, or why, says nothing.
///
/// The cause of the call that failed last is kept.
#[derive(Drop)]
pub struct FileStorage<'a, R: Files<File = File>> {
    files: &'a R,
    cause: Cell<Option<Cause>>,
}

impl<'a, R: Files<File = File>> FileStorage<'a, R> {
    /// The files that the program may use.
    pub fn new(files: &'a R) -> FileStorage<'a, R> {
        FileStorage {
            files,
            cause: Cell::new(None),
        }
    }

    // Keeps why a device has failed, if it has.
    fn note(&self, device: &FileDevice) {
        if let Some(error) = device.last_error() {
            self.cause.set(Cause::of(&error));
        }
    }
}

// Why a file that is open is no device: another process has the lock.
fn why_not_locked(file: &File) -> Option<Cause> {
    match file.try_lock() {
        Ok(()) => None,
        Err(TryLockError::WouldBlock) => Some(Cause::Locked),
        Err(TryLockError::Error(error)) => Cause::of(&error),
    }
}

// Why a file that is there could not be opened: it is opened once more. None where this is done.
fn why_not_opened<R: Files<File = File>>(files: &R, name: &str) -> Option<Cause> {
    let opened: io::Result<File> = OpenOptions::new().read(true).write(true).open(files, name);
    match opened {
        Ok(file) => why_not_locked(&file),
        Err(error) => Cause::of(&error),
    }
}

// Why a file could not be made: it is made once more. Where this is done it is removed again, and nothing is known.
fn why_not_made<R: Files<File = File>>(files: &R, name: &str) -> Option<Cause> {
    let made: io::Result<File> = OpenOptions::new()
        .read(true)
        .write(true)
        .create_new(true)
        .open(files, name);
    match made {
        Ok(_) => {
            let _ = remove_file(files, name);
            None
        }
        Err(error) => Cause::of(&error),
    }
}

impl<'a, R: Files<File = File>> Storage<FileDevice> for FileStorage<'a, R> {
    ghost use Rattle.std.specs.Prelude.{◌≡◌};
    ghost use Rattle.device.specs.Host.{host_disk};
    ghost use Rattle.device.specs.Sectors.{sector_disk};

    ghost made = { λ storage name device. (sector_disk host_disk).failures device ≡ 0 };

    ghost opened = { λ storage name device. (sector_disk host_disk).failures device ≡ 0 };

    ghost closed = { λ storage name device. Unit {0} };

    ghost discarded = { λ storage name device. Unit {0} };

    ghost missed = { λ storage name. Unit {0} };

    ghost caused = { λ storage name cause. Unit {0} };

    fn create(&self, name: &str) -> Result<FileDevice, CreateFault> {
        let made = FileDevice::create(self.files, name);
        if let Err(CreateFault::Device) = &made {
            self.cause.set(why_not_made(self.files, name));
        }
        made
    }

    fn open(&self, name: &str) -> Result<FileDevice, OpenFault> {
        let opened = FileDevice::open(self.files, name);
        if let Err(OpenFault::Device) = &opened {
            self.cause.set(why_not_opened(self.files, name));
        }
        opened
    }

    fn discard(&self, name: &str, device: FileDevice) {
        self.note(&device);
        // The file is still locked, so nobody else has begun a store in it.
        let _ = remove_file(self.files, name);
        drop(device);
    }

    fn close(&self, _name: &str, device: FileDevice) {
        self.note(&device);
        drop(device);
    }

    fn cause(&self, _name: &str) -> Option<Cause> {
        self.cause.get()
    }
}
