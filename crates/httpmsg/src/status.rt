//! The status of a response.

ghost use Rattle.std.specs.Prelude.{◌≡◌};
ghost use Rattle.http.specs.StatusCode.{IsStatusCode};

use http::StatusCode;
use std::marker::Model;

/// A status: a code of three digits (RFC 9110 section 15).
#[derive(Drop)]
pub struct Status {
    code: u16,
}

impl Model for Status {
    ghost use Rattle.std.specs.Prelude.{ℕ};
    ghost use Rattle.http.specs.StatusCode.{IsStatusCode};

    ghost Value = { ℕ };

    ghost view = { λ s. s.code };

    ghost invariant = { λ s. IsStatusCode s.code };
}

impl Status {
    /// The status of a code; 500 where it has not three digits.
    pub fn of(code: u16) -> Status
        ensures same { IsStatusCode code → result ≡ code }
        ensures other { (IsStatusCode code → ⊥) → result ≡ 500 }
    {
        match StatusCode::from_u16(code) {
            Ok(_) => Status { code },
            Err(_) => Status { code: 500 },
        }
    }

    /// The same as `http` has it. No public item names that crate's types: a library over this one would pass on all that it states, and all
    /// that stands below it.
    pub(crate) fn known(&self) -> StatusCode
        ensures { result ≡ self.now }
    {
        StatusCode::from_u16(self.code).unwrap_or(StatusCode::INTERNAL_SERVER_ERROR)
    }
}
