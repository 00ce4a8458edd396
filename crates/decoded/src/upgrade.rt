//! The format that an upgrade leads to.

ghost use Rattle.std.specs.Prelude.{◌≡◌};
ghost use Rattle.decoded.specs.Upgraded.{newest, is_newest, upgraded_rules};

use names::{Format, Rules};

/// The format that an upgrade leads to.
pub fn newest_format() -> Format
    ensures { result ≡ newest }
{
    Format::Third
}

/// Whether a format is that one.
pub fn is_newest(format: Format) -> bool
    ensures { result ≡ is_newest format }
{
    match format {
        Format::First | Format::Second => false,
        Format::Third => true,
    }
}

/// The rules behind an upgrade of a store that keeps to these, at a revision.
pub fn upgraded_rules(old: Rules, revision: u64) -> Rules
    ensures { result ≡ upgraded_rules old revision }
{
    newest_format().rules(revision.saturating_sub(old.window_events as u64).max(1))
}
