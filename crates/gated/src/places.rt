//! File descriptors 0, 1 and 2: standard input, output and errors.

ghost use Rattle.std.specs.Prelude.{◌≡◌, ◌≢◌, Some, None, IfOk, IfErr, OnErr};
ghost use Rattle.std.specs.IoError.{error_kind};

use crate::problem::Problem;
use std::fs::File;
use std::io;
use std::io::ErrorKind;
use std::rt::Files;

// The null device: reads end at once, writes are dropped.
const NOTHING: &str = "/dev/null";

// Opens it, to be read.
fn nothing<R: Files<File = File>>(files: &R) -> io::Result<File> {
    File::open(files, NOTHING)
}

// Opens it three times.
fn three<R: Files<File = File>>(files: &R) -> io::Result<(File, File, File)> {
    Ok((nothing(files)?, nothing(files)?, nothing(files)?))
}

// What was opened; nothing where it cannot be opened, so that the places stay as they are.
fn kept<F: Drop>(opened: io::Result<F>) -> Result<Option<F>, Problem>
    ensures kept { IfOk opened (λ files. result ≡ Ok (Some files)) }
    ensures memory { IfErr opened (λ error. error_kind error ≡ ErrorKind.OutOfMemory → result ≡ Err Problem.OutOfMemory) }
    ensures left { IfErr opened (λ error. error_kind error ≢ ErrorKind.OutOfMemory → result ≡ Ok None) }
{
    match opened {
        Ok(files) => Ok(Some(files)),
        Err(error) if error.kind() == ErrorKind::OutOfMemory => Err(Problem::OutOfMemory),
        Err(_) => Ok(None),
    }
}

/// Opens the null device on each of file descriptors 0, 1 and 2 that is closed. Keep what is returned alive: the descriptors close with it.
///
/// Without this, the file of a store would get the lowest free descriptor. With standard output closed that is 1, and replies would be written over
/// the store's header. Reading from such a descriptor ends at once, and writing to it fails.
///
/// # Errors
///
/// Out of memory.
pub fn take_places<R: Files<File = File>>(files: &R) -> Result<Option<(File, File, File)>, Problem>
    ensures { OnErr result (result ≡ Err Problem.OutOfMemory) }
{
    kept(three(files))
}
