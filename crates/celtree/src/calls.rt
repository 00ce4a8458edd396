//! Macros, and calls that have no tree.

ghost use Rattle.std.specs.Prelude.{◌≡◌, ◌≢◌, ◌∷◌, [], length, option_map, string_bytes, IfOk, MatchOption};
ghost use Rattle.celtree.specs.Calls.{macro_named, selection, variable, has_of, macro_of_three, macro_over, call_of, method_of};
ghost use Rattle.celtree.specs.Tree.{Over};
ghost use Rattle.celtree.specs.View.{view, views};
ghost use Rattle.celtree.specs.declared.tree.Macro.TheVariants as macro_of;

use crate::tree::{Macro, Tree};
use std::alloc::{AllocError, Global};

fn macro_named(name: &str) -> Option<Macro>
    ensures { result ≡ macro_named name.now }
{
    match name {
        "all" => Some(Macro::All),
        "exists" => Some(Macro::Exists),
        "exists_one" => Some(Macro::ExistsOne),
        "map" => Some(Macro::Map),
        "filter" => Some(Macro::Filter),
        _ => None,
    }
}

// `e.f` as the argument of `has`.
fn selection(tree: Box<Tree>) -> Option<Tree>
    ensures { option_map view result ≡ selection (view tree.value) }
{
    match Box::into_inner(tree) {
        Tree::Field(of, name) => Some(Tree::Has(of, name)),
        _ => None,
    }
}

// A name as the variable of a macro.
fn variable(tree: Tree) -> Option<String>
    ensures { option_map string_bytes result ≡ variable (view tree) }
{
    match tree {
        Tree::Name(name) => Some(name),
        _ => None,
    }
}

// The one argument.
fn one(alloc: Global, mut arguments: Vec<Tree>) -> Result<Option<Box<Tree>>, AllocError>
    ensures { IfOk result (λ o. MatchOption o (length arguments.items ≢ 1) (λ x. arguments.items ≡ x.value ∷ [])) }
{
    if arguments.len() != 1 {
        return Ok(None);
    }
    match arguments.pop() {
        Some(first) => {
            let first = Box::new(alloc, first)?;
            Ok(Some(first))
        }
        None => Ok(None),
    }
}

// The two arguments.
fn two(
    alloc: Global,
    mut arguments: Vec<Tree>,
) -> Result<Option<(Box<Tree>, Box<Tree>)>, AllocError>
    ensures { IfOk result (λ o. MatchOption o (length arguments.items ≢ 2) (λ x. arguments.items ≡ x.0.value ∷ x.1.value ∷ [])) }
{
    match arguments.pop() {
        Some(second) => {
            let second = Box::new(alloc, second)?;
            match one(alloc, arguments)? {
                Some(first) => Ok(Some((first, second))),
                None => Ok(None),
            }
        }
        None => Ok(None),
    }
}

// The three arguments.
fn three(
    alloc: Global,
    mut arguments: Vec<Tree>,
) -> Result<Option<(Box<Tree>, Box<Tree>, Box<Tree>)>, AllocError>
    ensures { IfOk result (λ o. MatchOption o (length arguments.items ≢ 3) (λ x. arguments.items ≡ x.0.value ∷ x.1.value ∷ x.2.value ∷ [])) }
{
    match arguments.pop() {
        Some(third) => {
            let third = Box::new(alloc, third)?;
            match two(alloc, arguments)? {
                Some((first, second)) => Ok(Some((first, second, third))),
                None => Ok(None),
            }
        }
        None => Ok(None),
    }
}

// A macro over a tree, with its variable and its body.
fn with_variable(
    alloc: Global,
    kind: Macro,
    of: Box<Tree>,
    variable: String,
    body: Box<Tree>,
) -> Result<Box<Tree>, AllocError>
    ensures { IfOk result (λ t. view t.value ≡ Over kind (view of.value) (string_bytes variable) (view body.value)) }
{
    let tree = Box::new(alloc, Tree::Macro(kind, of, variable, body))?;
    Ok(tree)
}

fn plain_macro(
    alloc: Global,
    kind: Macro,
    of: Box<Tree>,
    name: Box<Tree>,
    body: Box<Tree>,
) -> Result<Option<Box<Tree>>, AllocError>
    ensures { IfOk result (λ o. option_map (λ t. view t.value) o ≡ option_map (λ x. Over kind (view of.value) x (view body.value)) (variable (view name.value))) }
{
    match variable(Box::into_inner(name)) {
        Some(variable) => {
            let tree = with_variable(alloc, kind, of, variable, body)?;
            Ok(Some(tree))
        }
        None => Ok(None),
    }
}

// `of.map(name, test, body)`, which is `of.filter(name, test).map(name, body)`.
fn filtered_map(
    alloc: Global,
    of: Box<Tree>,
    name: Box<Tree>,
    test: Box<Tree>,
    body: Box<Tree>,
) -> Result<Option<Box<Tree>>, AllocError>
    ensures { IfOk result (λ o. option_map (λ t. view t.value) o ≡ macro_of_three macro_of.Map (view of.value) (view name.value) (view test.value) (view body.value)) }
{
    match variable(Box::into_inner(name)) {
        Some(variable) => {
            let copy = variable.clone()?;
            let filter = with_variable(alloc, Macro::Filter, of, copy, test)?;
            let tree = with_variable(alloc, Macro::Map, filter, variable, body)?;
            Ok(Some(tree))
        }
        None => Ok(None),
    }
}

fn macro_of_three(
    alloc: Global,
    kind: Macro,
    of: Box<Tree>,
    name: Box<Tree>,
    test: Box<Tree>,
    body: Box<Tree>,
) -> Result<Option<Box<Tree>>, AllocError>
    ensures { IfOk result (λ o. option_map (λ t. view t.value) o ≡ macro_of_three kind (view of.value) (view name.value) (view test.value) (view body.value)) }
{
    match kind {
        Macro::Map => filtered_map(alloc, of, name, test, body),
        _ => Ok(None),
    }
}

// A macro over a tree.
fn over(
    alloc: Global,
    kind: Macro,
    of: Box<Tree>,
    arguments: Vec<Tree>,
) -> Result<Option<Box<Tree>>, AllocError>
    ensures { IfOk result (λ o. option_map (λ t. view t.value) o ≡ macro_over kind (view of.value) (views arguments.items)) }
{
    let count = arguments.len();
    if count == 2 {
        match two(alloc, arguments)? {
            Some((name, body)) => plain_macro(alloc, kind, of, name, body),
            None => Ok(None),
        }
    } else if count == 3 {
        match three(alloc, arguments)? {
            Some((name, test, body)) => macro_of_three(alloc, kind, of, name, test, body),
            None => Ok(None),
        }
    } else {
        Ok(None)
    }
}

// `has(e.f)`.
fn has(alloc: Global, arguments: Vec<Tree>) -> Result<Option<Box<Tree>>, AllocError>
    ensures { IfOk result (λ o. option_map (λ t. view t.value) o ≡ has_of (views arguments.items)) }
{
    match one(alloc, arguments)? {
        Some(argument) => match selection(argument) {
            Some(tree) => {
                let tree = Box::new(alloc, tree)?;
                Ok(Some(tree))
            }
            None => Ok(None),
        },
        None => Ok(None),
    }
}

/// The tree of `name(arguments)`, if it has one: `has` is called of one selection `e.f`, and a macro only after an operand.
///
/// # Errors
///
/// [`AllocError`] when out of memory.
pub fn call(
    alloc: Global,
    name: String,
    arguments: Vec<Tree>,
) -> Result<Option<Box<Tree>>, AllocError>
    ensures { IfOk result (λ o. option_map (λ t. view t.value) o ≡ call_of (string_bytes name) (views arguments.items)) }
{
    if name.as_str() == "has" {
        return has(alloc, arguments);
    }
    match macro_named(name.as_str()) {
        Some(_) => Ok(None),
        None => {
            let tree = Box::new(alloc, Tree::Call(name, arguments))?;
            Ok(Some(tree))
        }
    }
}

/// The tree of `of.name(arguments)`, if it has one: a macro has a name as its variable and a body, `map` perhaps a test before the body,
/// and `has` is never called after an operand.
///
/// # Errors
///
/// [`AllocError`] when out of memory.
pub fn method(
    alloc: Global,
    of: Box<Tree>,
    name: String,
    arguments: Vec<Tree>,
) -> Result<Option<Box<Tree>>, AllocError>
    ensures { IfOk result (λ o. option_map (λ t. view t.value) o ≡ method_of (view of.value) (string_bytes name) (views arguments.items)) }
{
    match macro_named(name.as_str()) {
        Some(kind) => over(alloc, kind, of, arguments),
        None => {
            if name.as_str() == "has" {
                Ok(None)
            } else {
                let tree = Box::new(alloc, Tree::Method(of, name, arguments))?;
                Ok(Some(tree))
            }
        }
    }
}
