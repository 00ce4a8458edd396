//! Why a file could not be had, or an address not be listened on.

ghost use Rattle.std.specs.Prelude.{◌≡◌};
ghost use Rattle.std.specs.IoError.{error_kind, raw_os_error};
ghost use Rattle.store.specs.Cause.{text_of, of_kind, of_error};

use std::io;
use std::io::ErrorKind;

// Numbers of the system's errors that have no kind of their own: an error of the hardware, too many open files in the system, and in the process.
const HARDWARE: i32 = 5;

const TOO_MANY_IN_ALL: i32 = 23;

const TOO_MANY: i32 = 24;

/// Why a device could not be had, or failed, or why an address could not be listened on.
#[derive(Clone, Copy)]
pub enum Cause {
    /// Another process has the file open as a device.
    Locked,
    PermissionDenied,
    /// A folder on the way to the file is not there.
    Missing,
    IsADirectory,
    NotADirectory,
    ReadOnly,
    StorageFull,
    QuotaExceeded,
    FileTooLarge,
    InvalidName,
    TooManyLinks,
    TooManyFiles,
    /// The hardware failed.
    InputOutput,
    AddressInUse,
    AddressNotAvailable,
    /// Words that are no IP address and port.
    NotAnAddress,
}

// The cause that a kind of error names; none of a kind that neither a file nor an address has.
fn of_kind(kind: ErrorKind) -> Option<Cause>
    ensures { result ≡ of_kind kind }
{
    match kind {
        ErrorKind::PermissionDenied => Some(Cause::PermissionDenied),
        ErrorKind::NotFound => Some(Cause::Missing),
        ErrorKind::IsADirectory => Some(Cause::IsADirectory),
        ErrorKind::NotADirectory => Some(Cause::NotADirectory),
        ErrorKind::ReadOnlyFilesystem => Some(Cause::ReadOnly),
        ErrorKind::StorageFull => Some(Cause::StorageFull),
        ErrorKind::QuotaExceeded => Some(Cause::QuotaExceeded),
        ErrorKind::FileTooLarge => Some(Cause::FileTooLarge),
        ErrorKind::InvalidFilename => Some(Cause::InvalidName),
        ErrorKind::FilesystemLoop => Some(Cause::TooManyLinks),
        ErrorKind::AddrInUse => Some(Cause::AddressInUse),
        ErrorKind::AddrNotAvailable => Some(Cause::AddressNotAvailable),
        _ => None,
    }
}

impl Cause {
    /// The cause that an error of the system names; none where it says nothing of a file or an address.
    #[must_use]
    pub fn of(error: &io::Error) -> Option<Cause>
        ensures { result ≡ of_error (raw_os_error error.now) (error_kind error.now) }
    {
        match error.raw_os_error() {
            Some(HARDWARE) => Some(Cause::InputOutput),
            Some(TOO_MANY_IN_ALL | TOO_MANY) => Some(Cause::TooManyFiles),
            _ => of_kind(error.kind()),
        }
    }

    /// What is told of it.
    #[must_use]
    pub fn text(self) -> &'static str
        ensures { result.now ≡ text_of self }
    {
        match self {
            Cause::Locked => "locked by another process",
            Cause::PermissionDenied => "permission denied",
            Cause::Missing => "no such file or directory",
            Cause::IsADirectory => "is a directory",
            Cause::NotADirectory => "not a directory",
            Cause::ReadOnly => "read-only file system",
            Cause::StorageFull => "no space left on device",
            Cause::QuotaExceeded => "quota exceeded",
            Cause::FileTooLarge => "file too large",
            Cause::InvalidName => "invalid file name",
            Cause::TooManyLinks => "too many symbolic links",
            Cause::TooManyFiles => "too many open files",
            Cause::InputOutput => "input/output error",
            Cause::AddressInUse => "address in use",
            Cause::AddressNotAvailable => "address not available",
            Cause::NotAnAddress => "not an IP address and a port",
        }
    }
}
