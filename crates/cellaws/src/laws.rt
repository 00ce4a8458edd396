//! What types promise of meanings, which trees are compiled, and what the pass over a plan tells.

ghost use Rattle.cellaws.specs.Kinds.{MeansItsKind};
ghost use Rattle.cellaws.specs.Compilable.{ReadTreesAreSmall};
ghost use Rattle.cellaws.specs.FirstFault.{FirstFaultIsFirst};

/// A law: in an environment that meets the scope, a tree with a type means a value of that type's kind, or the error.
pub fn meaning_has_the_kind()
    ensures { MeansItsKind }
{}

/// A law: a tree that a text is read as is as small as `plan::compile` asks.
pub fn read_trees_are_small()
    ensures { ReadTreesAreSmall }
{}

/// A law: the fault that is told of a plan is that of the first question, front to back, that is answered with no.
pub fn first_fault_is_first()
    ensures { FirstFaultIsFirst }
{}
