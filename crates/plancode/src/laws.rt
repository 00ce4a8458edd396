//! Laws of the bytes of plans, and of lists of them.

ghost use Rattle.plancode.specs.Laws.{OneSpelling, DecodesItsCode, FirstFaults, OneList};

/// A law: plans with the same bytes are the same.
pub fn one_spelling()
    ensures { OneSpelling }
{}

/// A law: the bytes of a well-formed plan are decoded to it.
pub fn decodes_its_code()
    ensures { DecodesItsCode }
{}

/// A law: a table of bytes, and the first fault of each.
pub fn first_faults()
    ensures { FirstFaults }
{}

/// A law: plans for the same places with the same bytes are the same.
pub fn one_list()
    ensures { OneList }
{}
