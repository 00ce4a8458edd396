//! Why a line fails.

ghost use Rattle.std.specs.Prelude.{◌≡◌, ◌↔◌, IsTrue, IsOk, string_bytes};

use std::alloc::{AllocError, AllocFailed, Global};
use std::fmt;

/// Why a line fails.
#[derive(Drop)]
pub enum Wrong {
    /// Out of memory.
    Memory,
    /// What is against the line, or what does not hold.
    Told(&'static str),
    /// What was found, where it is not what the line wants.
    Found(String),
}

impl From<AllocError> for Wrong {
    fn from(_: AllocError) -> Wrong {
        Wrong::Memory
    }
}

impl<T: Drop> From<AllocFailed<T>> for Wrong {
    fn from(_: AllocFailed<T>) -> Wrong {
        Wrong::Memory
    }
}

impl From<fmt::Error> for Wrong {
    fn from(_: fmt::Error) -> Wrong {
        Wrong::Memory
    }
}

/// Nothing, where something holds.
///
/// # Errors
///
/// What is told, where it does not.
pub fn wanted(holds: bool, otherwise: &'static str) -> Result<(), Wrong>
    ensures held { IsOk result ↔ IsTrue holds }
{
    if holds {
        Ok(())
    } else {
        Err(Wrong::Told(otherwise))
    }
}

/// One comparison, where a text is the one that is wanted.
///
/// # Errors
///
/// The text, where it is another.
pub fn compared(found: String, wanted: &str) -> Result<u64, Wrong>
    ensures same { IsOk result ↔ (string_bytes found ≡ wanted.now) }
{
    if found.as_str() == wanted {
        Ok(1)
    } else {
        Err(Wrong::Found(found))
    }
}

/// Nothing, where a text is the one that is wanted.
///
/// # Errors
///
/// The text that was found, where it is another.
pub fn compare(alloc: Global, found: &str, wanted: &str) -> Result<(), Wrong>
    ensures same { IsOk result ↔ (found.now ≡ wanted.now) }
{
    if found == wanted {
        return Ok(());
    }
    Err(Wrong::Found(String::from_str(alloc, found)?))
}
