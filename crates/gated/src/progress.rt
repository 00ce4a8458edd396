//! The progress of a compaction, or of an upgrade.

ghost use Rattle.std.specs.Prelude.{◌≡◌, ◌+◌, ◌-◌, ◌^◌, ◌<◌, min, false};
ghost use Rattle.gated.specs.Progress.{Shows, progress_text, watched_disk};

use std::alloc::Global;
use store::{Device, DeviceFault, Output, write_all};

// How many bytes are moved until the counts are shown again.
const STEP_BYTES: u64 = 1 << 22;

const MEGABYTE: u64 = 1_000_000;

/// Counts the bytes that were read and written, and shows the counts on an output, if there is one: in one line, which is written over
/// each time that 4 MiB more were moved, and is ended when this is dropped. What cannot be shown is passed over.
pub struct Progress<P: Output + Drop> {
    alloc: Global,
    output: Option<P>,
    read_bytes: u64,
    written_bytes: u64,
    // How many of them were moved since the counts were shown.
    unshown_bytes: u64,
    has_line: bool,
}

impl<P: Output + Drop> Progress<P> {
    /// Nothing was moved yet. With no output nothing is shown.
    pub fn new(alloc: Global, output: Option<P>) -> Progress<P>
        ensures { result ≡ record { alloc = alloc; output = output; read_bytes = 0; written_bytes = 0; unshown_bytes = 0; has_line = false } }
    {
        Progress {
            alloc,
            output,
            read_bytes: 0,
            written_bytes: 0,
            unshown_bytes: 0,
            has_line: false,
        }
    }

    // Writes the counts over those that the line shows.
    fn show(&mut self)
        ensures counts { (self.new.read_bytes ≡ self.old.read_bytes) × (self.new.written_bytes ≡ self.old.written_bytes) }
        ensures shown { Shows P.took self.old.output self.new.output (progress_text self.old.read_bytes self.old.written_bytes) }
    {
        let read = self.read_bytes / MEGABYTE;
        let written = self.written_bytes / MEGABYTE;
        self.unshown_bytes = 0;
        if let Some(output) = &mut self.output {
            if let Ok(text) = format!(in self.alloc;
                "\rgated: {read} MB read, {written} MB written"
            ) {
                let _ = write_all(output, text.as_bytes());
                self.has_line = true;
            }
        }
    }

    // Takes note of bytes that were counted, and shows the counts where a step is full.
    fn advance(&mut self, bytes: usize)
        ensures counts { (self.new.read_bytes ≡ self.old.read_bytes) × (self.new.written_bytes ≡ self.old.written_bytes) }
        ensures quiet { self.old.unshown_bytes + bytes < 2 ^ 22
            → self.new ≡ record self.old { unshown_bytes = self.old.unshown_bytes + bytes } }
        ensures shown { Shows P.took self.old.output self.new.output (progress_text self.old.read_bytes self.old.written_bytes) }
    {
        self.unshown_bytes = self.unshown_bytes.saturating_add(bytes as u64);
        if self.unshown_bytes >= STEP_BYTES {
            self.show();
        }
    }

    /// Counts bytes that were read. What is shown are the counts with them.
    pub fn count_read(&mut self, bytes: usize)
        ensures read { self.new.read_bytes ≡ min (self.old.read_bytes + bytes) (2 ^ 64 - 1) }
        ensures written { self.new.written_bytes ≡ self.old.written_bytes }
        ensures quiet { self.old.unshown_bytes + bytes < 2 ^ 22
            → self.new ≡ record self.old { read_bytes = self.new.read_bytes; unshown_bytes = self.old.unshown_bytes + bytes } }
        ensures shown { Shows P.took self.old.output self.new.output (progress_text self.new.read_bytes self.new.written_bytes) }
    {
        self.read_bytes = self.read_bytes.saturating_add(bytes as u64);
        self.advance(bytes);
    }

    /// Counts bytes that were written. What is shown are the counts with them.
    pub fn count_written(&mut self, bytes: usize)
        ensures read { self.new.read_bytes ≡ self.old.read_bytes }
        ensures written { self.new.written_bytes ≡ min (self.old.written_bytes + bytes) (2 ^ 64 - 1) }
        ensures quiet { self.old.unshown_bytes + bytes < 2 ^ 22
            → self.new ≡ record self.old { written_bytes = self.new.written_bytes; unshown_bytes = self.old.unshown_bytes + bytes } }
        ensures shown { Shows P.took self.old.output self.new.output (progress_text self.new.read_bytes self.new.written_bytes) }
    {
        self.written_bytes = self.written_bytes.saturating_add(bytes as u64);
        self.advance(bytes);
    }

    // Shows the counts as they are in the end, and ends the line, if there is one.
    fn end(&mut self)
        ensures quiet { self.old.has_line ≡ false → self.new ≡ self.old }
    {
        if self.has_line {
            self.show();
            if let Some(output) = &mut self.output {
                let _ = write_all(output, b"\n");
            }
        }
    }
}

impl<P: Output + Drop> Drop for Progress<P> {
    fn drop(mut self) {
        self.end();
        let Progress {
            alloc: _,
            output: _,
            read_bytes: _,
            written_bytes: _,
            unshown_bytes: _,
            has_line: _,
        } = self;
    }
}

/// A device whose progress is shown. Each call is one of the device inside.
#[derive(Drop)]
pub struct Watched<D: Device, P: Output + Drop> {
    device: D,
    progress: Progress<P>,
}

impl<D: Device, P: Output + Drop> Watched<D, P> {
    /// A device, and what counts the bytes that are read from it and written to it.
    pub fn new(device: D, progress: Progress<P>) -> Watched<D, P>
        ensures { result ≡ record { device = device; progress = progress } }
    {
        Watched { device, progress }
    }

    /// The device inside. The line of the progress ends.
    pub fn into_device(self) -> D
        ensures { result ≡ self.device }
    {
        let Watched { device, progress } = self;
        drop(progress);
        device
    }
}

impl<D: Device, P: Output + Drop> Device for Watched<D, P> {
    ghost disk = { watched_disk D.disk };

    ghost whole = { λ watched keeps. D.whole watched.device keeps };

    ghost at_most = { λ watched keeps. D.at_most watched.device keeps };

    ghost counts_now = { λ watched t c keeps le left. D.counts_now watched.device t c keeps le left };

    ghost only_now = { λ watched c keeps since. D.only_now watched.device c keeps since };

    fn len(&mut self) -> Result<u64, DeviceFault> {
        self.device.len()
    }

    fn read(&mut self, at: u64, buffer: &mut [u8]) -> Result<(), DeviceFault> {
        self.device.read(at, buffer)?;
        self.progress.count_read(buffer.len());
        Ok(())
    }

    fn write(&mut self, at: u64, bytes: &[u8]) -> Result<(), DeviceFault> {
        self.device.write(at, bytes)?;
        self.progress.count_written(bytes.len());
        Ok(())
    }

    fn cut(&mut self, sectors: u64) -> Result<(), DeviceFault> {
        self.device.cut(sectors)
    }

    fn sync(&mut self) -> Result<(), DeviceFault> {
        self.device.sync()
    }
}
