ghost use Rattle.std.specs.Prelude.{◌≡◌, ◌<◌, ◌≤◌, ◌⊎◌, ◌^◌, ◌-◌, ◌+◌, ◌↔◌, length, None, Some, IsOk, IsErr, IfOk, IfErr, OnOk};

use crate::{DeviceFault, RawFile};
use std::fs::File;
use std::io;
use std::os::unix::fs::FileExt;

// The operating system's own limit on offsets.
const MOST_BYTES: u64 = 1 << 63;

/// A file of the operating system.
///
/// No contract of the operating system says what its file holds, so here `keeps` is a fact that nobody has, and what `RawFile` says
/// of contents says nothing. What is proved of every raw file holds of this one only if the file keeps the disk model, which is
/// assumed.
#[derive(Drop)]
pub struct HostFile {
    file: File,
    failures: u64,
    // Why the call that failed last did.
    error: Option<io::Error>,
}

impl HostFile {
    /// A file that has not failed.
    pub(crate) fn new(file: File) -> HostFile
        ensures { (result.failures ≡ 0) × (result.error ≡ None) }
    {
        HostFile {
            file,
            failures: 0,
            error: None,
        }
    }

    /// Why the call that failed last did; none where none has.
    pub(crate) fn last_error(&self) -> Option<io::Error>
        ensures { result ≡ self.now.error }
    {
        self.error
    }

    // Counts a call that failed, and keeps why it did.
    fn counted<T: Drop>(&mut self, answer: io::Result<T>) -> Result<T, DeviceFault>
        ensures value { IfOk result (λ value. answer ≡ Ok value) }
        ensures later { self.old.failures ≤ self.new.failures }
        ensures well { IsOk result → self.new.failures ≡ self.old.failures }
        ensures cause { IsErr result → (self.old.failures < self.new.failures) ⊎ (self.new.failures ≡ 2 ^ 64 - 1) }
        ensures kept { IfOk answer (λ _. self.new.error ≡ self.old.error) }
        ensures told { IfErr answer (λ error. self.new.error ≡ Some error) }
    {
        match answer {
            Ok(value) => Ok(value),
            Err(error) => {
                self.failures = self.failures.saturating_add(1);
                self.error = Some(error);
                Err(DeviceFault)
            }
        }
    }
}

// Refuses a range that ends past the limit.
fn within_limit(offset: u64, count: usize) -> io::Result<()>
    ensures { IsOk result ↔ (offset + count ≤ 2 ^ 63) }
{
    if offset <= MOST_BYTES && count as u64 <= MOST_BYTES - offset {
        Ok(())
    } else {
        Err(io::ErrorKind::FileTooLarge.into())
    }
}

fn read_bytes(file: &File, offset: u64, buffer: &mut [u8]) -> io::Result<()> {
    within_limit(offset, buffer.len())?;
    file.read_exact_at(buffer, offset)
}

fn write_bytes(file: &File, offset: u64, bytes: &[u8]) -> io::Result<()>
    ensures { OnOk result (offset + length bytes.now ≤ 2 ^ 63) }
{
    within_limit(offset, bytes.len())?;
    file.write_all_at(bytes, offset)
}

fn size_of(file: &File) -> io::Result<u64>
    ensures { IfOk result (λ size. size ≤ 2 ^ 63) }
{
    let size = file.metadata()?.len();
    within_limit(size, 0)?;
    Ok(size)
}

impl RawFile for HostFile {
    ghost use Rattle.device.specs.Host.{host_disk};

    ghost disk = { host_disk };

    ghost at_most = { λ file keeps. absurd keeps };

    ghost counts_now = { λ file t c keeps le left. absurd keeps };

    ghost only_now = { λ file c keeps since. absurd keeps };

    fn size(&mut self) -> Result<u64, DeviceFault> {
        let answer = size_of(&self.file);
        self.counted(answer)
    }

    fn read_at(&mut self, offset: u64, buffer: &mut [u8]) -> Result<(), DeviceFault> {
        let answer = read_bytes(&self.file, offset, buffer);
        self.counted(answer)
    }

    fn write_at(&mut self, offset: u64, bytes: &[u8]) -> Result<(), DeviceFault> {
        let answer = write_bytes(&self.file, offset, bytes);
        self.counted(answer)
    }

    fn cut_to(&mut self, size: u64) -> Result<(), DeviceFault> {
        let answer = self.file.set_len(size);
        self.counted(answer)
    }

    fn sync(&mut self) -> Result<(), DeviceFault> {
        let answer = self.file.sync_all();
        self.counted(answer)
    }
}
