ghost use Rattle.std.specs.Prelude.{◌≡◌, true, IfOk};
ghost use Rattle.device.specs.Faults.{create_fault, open_fault};
ghost use Rattle.std.specs.Fs.{new_options, with_read, with_write, with_create_new};
ghost use Rattle.std.specs.IoError.{error_kind};

use crate::host_file::HostFile;
use crate::sector_file::SectorFile;
use std::fmt::{Display, Formatter};
use std::fs::{File, OpenOptions};
use std::io::ErrorKind;
use std::path::Path;
use std::rt::Files;
use std::{fmt, io};

/// A file of the operating system as a device. While it is open no other process can open it as a device.
pub type FileDevice = SectorFile<HostFile>;

/// Why a file device could not be made.
#[derive(Clone, Copy)]
pub enum CreateFault {
    /// Something has that name.
    Exists,
    Device,
    Memory,
}

/// Why a file device could not be opened.
#[derive(Clone, Copy)]
pub enum OpenFault {
    /// Nothing has that name.
    Missing,
    /// The file could not be opened, or another process has it open.
    Device,
    Memory,
}

impl Display for CreateFault {
    ghost use Rattle.std.specs.Prelude.{Some};
    ghost use Rattle.device.specs.Faults.{create_text};

    ghost output = { λ fault. Some (create_text fault) };

    fn fmt<W: fmt::Write>(&self, f: &mut Formatter<W>) -> fmt::Result {
        f.write_str(match self {
            CreateFault::Exists => "file exists",
            CreateFault::Device => "device failed",
            CreateFault::Memory => "out of memory",
        })
    }
}

impl Display for OpenFault {
    ghost use Rattle.std.specs.Prelude.{Some};
    ghost use Rattle.device.specs.Faults.{open_text};

    ghost output = { λ fault. Some (open_text fault) };

    fn fmt<W: fmt::Write>(&self, f: &mut Formatter<W>) -> fmt::Result {
        f.write_str(match self {
            OpenFault::Missing => "no such file",
            OpenFault::Device => "device failed",
            OpenFault::Memory => "out of memory",
        })
    }
}

impl From<io::Error> for CreateFault {
    ghost from_gives = { λ error fault. fault ≡ create_fault (error_kind error) };

    fn from(error: io::Error) -> CreateFault {
        match error.kind() {
            ErrorKind::AlreadyExists => CreateFault::Exists,
            ErrorKind::OutOfMemory => CreateFault::Memory,
            _ => CreateFault::Device,
        }
    }
}

impl From<io::Error> for OpenFault {
    ghost from_gives = { λ error fault. fault ≡ open_fault (error_kind error) };

    fn from(error: io::Error) -> OpenFault {
        match error.kind() {
            ErrorKind::NotFound => OpenFault::Missing,
            ErrorKind::OutOfMemory => OpenFault::Memory,
            _ => OpenFault::Device,
        }
    }
}

// How a file is made that is not there. A file that is there is left alone, and the call fails.
fn making_a_file() -> OpenOptions
    ensures { result ≡ with_create_new (with_write (with_read new_options true) true) true }
{
    let mut options = OpenOptions::new();
    options.read(true).write(true).create_new(true);
    options
}

// How a file is opened that is there: as it is, with none made.
fn opening_a_file() -> OpenOptions
    ensures { result ≡ with_write (with_read new_options true) true }
{
    let mut options = OpenOptions::new();
    options.read(true).write(true);
    options
}

// Syncs the folder that a file lies in, so that a crash does not take its name away.
fn sync_folder<R: Files<File = File>>(files: &R, path: &str) -> io::Result<()> {
    let folder = match Path::new(path).parent() {
        Some(folder) if !folder.as_os_str().is_empty() => folder.as_os_str(),
        _ => ".",
    };
    OpenOptions::new()
        .read(true)
        .open(files, folder)?
        .sync_all()
}

// Takes the lock that keeps other processes out.
fn locked(file: File) -> io::Result<FileDevice>
    ensures { IfOk result (λ device. device.file.failures ≡ 0) }
{
    match file.try_lock() {
        Ok(()) => Ok(SectorFile::new(HostFile::new(file))),
        Err(_) => Err(ErrorKind::ResourceBusy.into()),
    }
}

impl SectorFile<HostFile> {
    ghost use Rattle.device.specs.Host.{host_disk};
    ghost use Rattle.device.specs.Sectors.{sector_disk};

    /// Makes a file without a sector, and syncs it and its folder. Where it answers `Device` a file may have been made.
    pub fn create<R: Files<File = File>>(files: &R, path: &str) -> Result<FileDevice, CreateFault>
        ensures { IfOk result (λ device. (sector_disk host_disk).failures device ≡ 0) }
    {
        let file = making_a_file().open(files, path)?;
        file.sync_all()?;
        sync_folder(files, path)?;
        Ok(locked(file)?)
    }

    /// The system's error of the call of this device that failed last; none where none has.
    #[must_use]
    pub fn last_error(&self) -> Option<io::Error>
        ensures { result ≡ self.now.file.error }
    {
        self.file().last_error()
    }

    /// Opens a file that is there.
    pub fn open<R: Files<File = File>>(files: &R, path: &str) -> Result<FileDevice, OpenFault>
        ensures { IfOk result (λ device. (sector_disk host_disk).failures device ≡ 0) }
    {
        let file = opening_a_file().open(files, path)?;
        Ok(locked(file)?)
    }
}
