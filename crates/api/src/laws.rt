//! Laws of what serving writes.

ghost use Rattle.api.specs.Laws.{AnswersAreRuns};

/// States that the answers to messages are a run of their requests.
pub fn answers_are_runs()
    ensures { AnswersAreRuns }
{}
