// The laws of the definitions, each the contract of a function.
ghost use Rattle.apicore.specs.Laws.{WritesFollow, AcceptedAreAdmitted, RunsAreSteps, ViewDecides, PreparedIsStep};

/// What a request writes may follow, so that a step makes a history of a history.
pub fn writes_follow()
    ensures { WritesFollow }
{}

/// Each accepted write was admitted by the policies, bindings and parameters just before it.
pub fn accepted_are_admitted()
    ensures { AcceptedAreAdmitted }
{}

/// A run is its steps in turn.
pub fn runs_are_steps()
    ensures { RunsAreSteps }
{}

/// Equal views give equal replies, and equal views after.
pub fn view_decides()
    ensures { ViewDecides }
{}

/// A step that is prepared, and whose write is then taken, is one step of the model.
pub fn prepared_is_step()
    ensures { PreparedIsStep }
{}
