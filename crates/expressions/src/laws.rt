//! Laws of policies, as formats have them and as they are stored.

ghost use Rattle.expressions.specs.Laws.{SpecificationsStay, OneStoredList, ExpressionsFitTheText, VariablesAreFew};

use celtypes::types_stay;

/// A law: trees that stand in an object in one format stand there in another too, provided that namespaces are objects in this one if they are in the
/// first.
pub fn specifications_stay()
    ensures { SpecificationsStay }
{
    types_stay();
}

/// A law: plans that an object may have, with the same bytes, are the same.
pub fn one_stored_list()
    ensures { OneStoredList }
{}

/// A law: the expressions of a policy have together at most as many bytes as the text of its document.
pub fn expressions_fit_the_text()
    ensures { ExpressionsFitTheText }
{}

/// A law: a policy that a document spells has no more variables than `plan::compile` takes.
pub fn variables_are_few()
    ensures { VariablesAreFew }
{}
