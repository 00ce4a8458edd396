// The laws of the definitions, each the contract of a function.
ghost use Rattle.requests.specs.Laws.{StoredIsRead};
ghost use Rattle.requests.specs.Spelling.{PartsAreSpelled};

/// What is stored is read as itself, so that recovery finds by `Manifest::read` what was stored.
pub fn stored_is_read()
    ensures { StoredIsRead }
{}

/// A part of a selector asks something just where it spells it, as `LABEL=VALUE` or one of the other forms.
pub fn parts_are_spelled()
    ensures { PartsAreSpelled }
{}
