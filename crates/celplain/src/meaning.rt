//! The meaning of a tree, by direct recursion.

ghost use Rattle.std.specs.Prelude.{◌≡◌, map, option_map, string_bytes, Some, IfOk};
ghost use Rattle.celtree.specs.Tree as expr;
ghost use Rattle.celtree.specs.View.{view, views, pair_views};
ghost use Rattle.celmean.specs.Value.{with_values};
ghost use Rattle.celmean.specs.Collections.{indexed};
ghost use Rattle.celmean.specs.Operators.{infixed};
ghost use Rattle.celmean.specs.Functions.{method_called};
ghost use Rattle.celmean.specs.Macros.{range_of, over_items};
ghost use Rattle.celmean.specs.Meaning.{mean, all_means, pair_means, bind};
ghost use Rattle.celmean.specs.Seen.{value_of, values_seen, outcome_of, outcomes_seen, outcome_pairs_seen};
ghost use Rattle.celplain.specs.Seen.{environment_of};

use crate::environment::{Binding, Environment, bind, bound};
use celmean::{
    LONGEST_RANGE, Outcome, Value, called, has_member_of, index_of, infixed, is_false, is_true,
    list_of, map_of, member_of, method_called, prefixed, range_of, reduced,
};
use celtree::{Macro, Operator, Prefix, Tree, is_variables};
use std::alloc::{AllocError, Global};

/// What the tree means where names stand for what the environment says: a value, or the one error.
///
/// # Errors
///
/// Out of memory.
#[cycle(evaluate)]
pub fn evaluate(
    alloc: Global,
    tree: &Tree,
    environment: &Environment<'_>,
) -> Result<Outcome, AllocError>
    ensures { IfOk result (λ o. outcome_of o ≡ mean (view tree.now) (environment_of environment.now)) }
{
    match tree {
        Tree::Null => Ok(Outcome::Gives(Value::Null)),
        Tree::Bool(truth) => Ok(Outcome::Gives(Value::Bool(*truth))),
        Tree::Int(number) => Ok(Outcome::Gives(Value::Int(*number))),
        Tree::Uint(number) => Ok(Outcome::Gives(Value::Uint(*number))),
        Tree::Text(text) => Ok(Outcome::Gives(Value::Text(text.clone()?))),
        Tree::Name(name) => bound(name, environment.names),
        Tree::Field(of, name) => evaluate_field(alloc, of, name, environment),
        Tree::Has(of, name) => evaluate_presence(alloc, of, name, environment),
        Tree::Index(of, index) => {
            let of = evaluate(alloc, of, environment)?;
            evaluate_index(alloc, &of, index, environment)
        }
        Tree::List(items) => evaluate_list(alloc, items, environment),
        Tree::Map(entries) => evaluate_map(alloc, entries, environment),
        Tree::Unary(prefix, of) => evaluate_unary(alloc, *prefix, of, environment),
        Tree::Infix(operator, left, right) => {
            let left = evaluate(alloc, left, environment)?;
            evaluate_infix(alloc, *operator, &left, right, environment)
        }
        Tree::Conditional(test, first, second) => {
            let test = evaluate(alloc, test, environment)?;
            if is_true(&test) {
                evaluate(alloc, first, environment)
            } else if is_false(&test) {
                evaluate(alloc, second, environment)
            } else {
                Ok(Outcome::Error)
            }
        }
        Tree::Call(name, arguments) => evaluate_call(alloc, name, arguments, environment),
        Tree::Method(of, name, arguments) => {
            let of = evaluate(alloc, of, environment)?;
            evaluate_method(alloc, &of, name, arguments, environment)
        }
        Tree::Macro(kind, of, variable, body) => {
            match evaluate_range(alloc, of, environment)? {
                Some(items) => evaluate_over(alloc, *kind, variable, body, &items, environment),
                None => Ok(Outcome::Error),
            }
        }
    }
}

#[cycle(evaluate)]
fn evaluate_field(
    alloc: Global,
    of: &Box<Tree>,
    name: &String,
    environment: &Environment<'_>,
) -> Result<Outcome, AllocError>
    ensures { IfOk result (λ o. outcome_of o ≡ mean (expr.Field (view of.now.value) (string_bytes name.now)) (environment_of environment.now)) }
{
    if is_variables(of) {
        bound(name, environment.variables)
    } else {
        let of = evaluate(alloc, of, environment)?;
        member_of(alloc, name, &of)
    }
}

#[cycle(evaluate)]
fn evaluate_presence(
    alloc: Global,
    of: &Box<Tree>,
    name: &String,
    environment: &Environment<'_>,
) -> Result<Outcome, AllocError>
    ensures { IfOk result (λ o. outcome_of o ≡ mean (expr.Has (view of.now.value) (string_bytes name.now)) (environment_of environment.now)) }
{
    let of = evaluate(alloc, of, environment)?;
    has_member_of(alloc, name, &of)
}

#[cycle(evaluate)]
fn evaluate_list(
    alloc: Global,
    items: &Vec<Tree>,
    environment: &Environment<'_>,
) -> Result<Outcome, AllocError>
    ensures { IfOk result (λ o. outcome_of o ≡ mean (expr.Sequence (views items.now.items)) (environment_of environment.now)) }
{
    let outcomes = evaluate_all(alloc, items, environment)?;
    list_of(alloc, outcomes)
}

#[cycle(evaluate)]
fn evaluate_map(
    alloc: Global,
    entries: &Vec<(Tree, Tree)>,
    environment: &Environment<'_>,
) -> Result<Outcome, AllocError>
    ensures { IfOk result (λ o. outcome_of o ≡ mean (expr.Mapping (pair_views entries.now.items)) (environment_of environment.now)) }
{
    let outcomes = evaluate_pairs(alloc, entries, environment)?;
    map_of(alloc, &outcomes)
}

#[cycle(evaluate)]
fn evaluate_unary(
    alloc: Global,
    prefix: Prefix,
    of: &Box<Tree>,
    environment: &Environment<'_>,
) -> Result<Outcome, AllocError>
    ensures { IfOk result (λ o. outcome_of o ≡ mean (expr.Unary prefix (view of.now.value)) (environment_of environment.now)) }
{
    let of = evaluate(alloc, of, environment)?;
    Ok(prefixed(prefix, &of))
}

#[cycle(evaluate)]
fn evaluate_call(
    alloc: Global,
    name: &String,
    arguments: &Vec<Tree>,
    environment: &Environment<'_>,
) -> Result<Outcome, AllocError>
    ensures { IfOk result (λ o. outcome_of o ≡ mean (expr.Call (string_bytes name.now) (views arguments.now.items)) (environment_of environment.now)) }
{
    let outcomes = evaluate_all(alloc, arguments, environment)?;
    called(alloc, name, &outcomes)
}

// An index of what was evaluated.
#[cycle(evaluate)]
fn evaluate_index(
    alloc: Global,
    of: &Outcome,
    index: &Box<Tree>,
    environment: &Environment<'_>,
) -> Result<Outcome, AllocError>
    ensures { IfOk result (λ o. outcome_of o ≡ with_values indexed (outcome_of of.now) (mean (view index.now.value) (environment_of environment.now))) }
{
    let index = evaluate(alloc, index, environment)?;
    index_of(of, &index)
}

// An operator after its left side.
#[cycle(evaluate)]
fn evaluate_infix(
    alloc: Global,
    operator: Operator,
    left: &Outcome,
    right: &Box<Tree>,
    environment: &Environment<'_>,
) -> Result<Outcome, AllocError>
    ensures { IfOk result (λ o. outcome_of o ≡ infixed operator (outcome_of left.now) (mean (view right.now.value) (environment_of environment.now))) }
{
    let right = evaluate(alloc, right, environment)?;
    infixed(operator, left, &right)
}

// A method of what was evaluated.
#[cycle(evaluate)]
fn evaluate_method(
    alloc: Global,
    of: &Outcome,
    name: &String,
    arguments: &Vec<Tree>,
    environment: &Environment<'_>,
) -> Result<Outcome, AllocError>
    ensures { IfOk result (λ o. outcome_of o ≡ method_called (string_bytes name.now) (outcome_of of.now) (all_means (views arguments.now.items) (environment_of environment.now))) }
{
    let outcomes = evaluate_all(alloc, arguments, environment)?;
    Ok(method_called(name, of, &outcomes))
}

// What a macro goes over.
#[cycle(evaluate)]
fn evaluate_range(
    alloc: Global,
    of: &Box<Tree>,
    environment: &Environment<'_>,
) -> Result<Option<Vec<Value>>, AllocError>
    ensures { IfOk result (λ o. option_map (λ v. values_seen v.items) o ≡ range_of (mean (view of.now.value) (environment_of environment.now))) }
{
    let of = evaluate(alloc, of, environment)?;
    range_of(alloc, &of)
}

// A macro over these items.
#[cycle(evaluate)]
fn evaluate_over(
    alloc: Global,
    kind: Macro,
    variable: &String,
    body: &Box<Tree>,
    items: &Vec<Value>,
    environment: &Environment<'_>,
) -> Result<Outcome, AllocError>
    ensures { IfOk result (λ o. outcome_of o ≡ over_items kind (λ x. mean (view body.now.value) (bind (string_bytes variable.now) x (environment_of environment.now))) (Some (values_seen items.now.items))) }
{
    if items.len() > LONGEST_RANGE {
        return Ok(Outcome::Error);
    }
    let outcomes = evaluate_items(alloc, body, variable, items, environment)?;
    reduced(alloc, kind, items, outcomes)
}

#[cycle(evaluate)]
fn evaluate_all(
    alloc: Global,
    trees: &Vec<Tree>,
    environment: &Environment<'_>,
) -> Result<Vec<Outcome>, AllocError>
    ensures { IfOk result (λ v. outcomes_seen v.items ≡ all_means (views trees.now.items) (environment_of environment.now)) }
{
    let mut outcomes = Vec::new(alloc);
    for tree in trees {
        outcomes.push(evaluate(alloc, tree, environment)?)?;
    }
    Ok(outcomes)
}

#[cycle(evaluate)]
fn evaluate_pairs(
    alloc: Global,
    entries: &Vec<(Tree, Tree)>,
    environment: &Environment<'_>,
) -> Result<Vec<(Outcome, Outcome)>, AllocError>
    ensures { IfOk result (λ v. outcome_pairs_seen v.items ≡ pair_means (pair_views entries.now.items) (environment_of environment.now)) }
{
    let mut outcomes = Vec::new(alloc);
    for (key, value) in entries {
        let key = evaluate(alloc, key, environment)?;
        let value = evaluate(alloc, value, environment)?;
        outcomes.push((key, value))?;
    }
    Ok(outcomes)
}

// The outcomes of a macro's body for the items.
#[cycle(evaluate)]
fn evaluate_items(
    alloc: Global,
    body: &Tree,
    variable: &str,
    items: &Vec<Value>,
    environment: &Environment<'_>,
) -> Result<Vec<Outcome>, AllocError>
    ensures { IfOk result (λ v. outcomes_seen v.items ≡ map (λ x. mean (view body.now) (bind variable.now x (environment_of environment.now))) (values_seen items.now.items)) }
{
    let mut outcomes = Vec::new(alloc);
    for item in items {
        let first = Binding {
            name: variable,
            value: Some(item),
        };
        let names = bind(alloc, first, environment.names)?;
        let inner = Environment {
            names: &names,
            variables: environment.variables,
        };
        outcomes.push(evaluate(alloc, body, &inner)?)?;
    }
    Ok(outcomes)
}
