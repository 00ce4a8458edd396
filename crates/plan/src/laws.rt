//! Laws of compiled code.

ghost use Rattle.plan.specs.Correct.{RunsAsMeant, NamesAreDeclared};

/// A law: the code of an expression with a type, whose macros nest at most two deep, gives what the expression means.
pub fn runs_as_meant()
    ensures { RunsAsMeant }
{}

/// A law: where `namespaceObject` is not declared, the code of an expression with a type names nothing after `params`.
pub fn names_are_declared()
    ensures { NamesAreDeclared }
{}
