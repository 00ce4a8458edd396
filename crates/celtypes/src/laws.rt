//! Laws of types.

ghost use Rattle.celtypes.specs.Typing.{HasOneTypeAtMost, TypesStay};

/// A law: under a scope, a tree has at most one type.
pub fn at_most_one_type()
    ensures { HasOneTypeAtMost }
{}

/// A law: a tree that has a type keeps it where `namespaceObject` is declared too.
pub fn types_stay()
    ensures { TypesStay }
{}
