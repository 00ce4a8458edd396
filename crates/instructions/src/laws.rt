//! Laws of plans.

ghost use Rattle.instructions.specs.WellFormed.{SoundWhereWellFormed};

/// A law: a plan is without a fault exactly where it is well formed.
pub fn sound_where_well_formed()
    ensures { SoundWhereWellFormed }
{}
