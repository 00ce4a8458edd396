//! The laws of restating.

ghost use Rattle.dialect.specs.Laws.{OthersRefused, ServedStays};

/// What is served without the dialect is asked in it by the same message, but for watches.
pub fn served_stays()
    ensures { ServedStays }
{}

/// A pair that is neither served nor left out is refused, whatever stands beside it.
pub fn others_refused()
    ensures { OthersRefused }
{}
