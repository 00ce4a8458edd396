//! A law of the lines of a log.

ghost use Rattle.clients.specs.Journal.{TextsAreShown};

/// States that a text which a client chose is shown as one word of one line: printable ASCII, and no space.
pub fn texts_are_shown()
    ensures { TextsAreShown }
{}
