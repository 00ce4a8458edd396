//! Laws of verdicts.

ghost use Rattle.verdict.specs.Laws.{BindingsAscend};

/// A law: where keys ascend, the bindings that are asked ascend by name.
pub fn bindings_ascend()
    ensures { BindingsAscend }
{}
