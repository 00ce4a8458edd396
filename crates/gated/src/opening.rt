//! What a server tells on standard error of the store that it opened.

ghost use Rattle.std.specs.Prelude.{◌≡◌, string_bytes, Err, IfOk, OnOk, OnErr};
ghost use Rattle.std.specs.Duration.{as_nanos};
ghost use Rattle.gated.specs.Opening.{IsFoundIn, found_shown, opened_line, seconds_shown};
ghost use Rattle.gated.specs.Problem.{TellsAll};

use crate::command::VERSION;
use crate::problem::Problem;
use std::alloc::{AllocError, Global};
use std::io;
use std::time::{Clock, Duration, Instant};
use store::{Device, Format, Output, Store, write_all};

/// What was found in a store's file.
#[derive(Drop)]
pub struct Found {
    /// Its format.
    pub format: Format,
    /// The revision of the last write.
    pub revision: u64,
    /// How many objects it holds.
    pub objects: usize,
    /// How many records its log has.
    pub records: u64,
}

impl Found {
    /// What was found of a store that was opened just now.
    pub fn of<D: Device>(store: &Store<D>) -> Found
        ensures { IsFoundIn store.now result }
    {
        Found {
            format: store.format(),
            revision: store.revision(),
            objects: store.object_count(),
            records: store.record_count(),
        }
    }
}

/// The time that passed since an instant; none where the clock fails.
pub fn passed_since<C: Clock>(clock: &C, start: io::Result<Instant>) -> Duration {
    match (start, Instant::now(clock)) {
        (Ok(start), Ok(now)) => now.saturating_duration_since(start),
        _ => Duration::ZERO,
    }
}

// A time in seconds, with two places behind the point.
fn seconds_text(alloc: Global, passed: Duration) -> Result<String, AllocError>
    ensures { IfOk result (λ text. string_bytes text ≡ seconds_shown (as_nanos passed)) }
{
    let nanoseconds = passed.as_nanos();
    let seconds = nanoseconds / 1_000_000_000;
    let tenths = nanoseconds / 100_000_000 % 10;
    let hundredths = nanoseconds / 10_000_000 % 10;
    format!(in alloc; "{seconds}.{tenths}{hundredths}")
}

// What was found, as it is told.
fn found_text(alloc: Global, found: &Found) -> Result<String, AllocError>
    ensures { IfOk result (λ text. string_bytes text ≡ found_shown found.now) }
{
    let format = found.format.number();
    let revision = found.revision;
    let objects = found.objects;
    let records = found.records;
    format!(in alloc; "format {format}, revision {revision}, objects {objects}, records {records}")
}

// What is told of a store that was opened in this time.
fn opened_text(
    alloc: Global,
    file: &str,
    found: &Found,
    passed: Duration,
) -> Result<String, AllocError>
    ensures { IfOk result (λ text. string_bytes text ≡ opened_line file.now found.now (as_nanos passed)) }
{
    let found = found_text(alloc, found)?;
    let seconds = seconds_text(alloc, passed)?;
    format!(in alloc; "gated: {VERSION}, {file}: {found}, read in {seconds} s\n")
}

/// Tells of a store that was opened in this time.
///
/// # Errors
///
/// `OutOfMemory`, and nothing is told then. Where `errors` fails nothing is said of it.
pub fn print_opened<E: Output>(
    alloc: Global,
    file: &str,
    found: &Found,
    passed: Duration,
    errors: &mut E,
) -> Result<(), Problem>
    ensures line { OnOk result (TellsAll E.took E.failures errors.old errors.new (opened_line file.now found.now (as_nanos passed))) }
    ensures refusal { OnErr result ((result ≡ Err Problem.OutOfMemory) × (errors.new ≡ errors.old)) }
{
    match opened_text(alloc, file, found, passed) {
        Ok(text) => {
            // If standard error fails there is nowhere to report it.
            let _ = write_all(errors, text.as_bytes());
            Ok(())
        }
        Err(_) => Err(Problem::OutOfMemory),
    }
}
