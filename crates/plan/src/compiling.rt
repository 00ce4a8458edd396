//! The instructions of a tree.

ghost use Rattle.std.specs.Prelude.{◌≡◌, ◌+◌, ◌*◌, ◌≤◌, ◌++◌, string_bytes, length, IfOk, OnOk};
ghost use Rattle.celtree.specs.Tree as expr;
ghost use Rattle.celtree.specs.View.{view, views, pair_views};
ghost use Rattle.celtree.specs.Size.{nodes, text_bytes};
ghost use Rattle.celtypes.specs.Seen.{declared};
ghost use Rattle.instructions.specs.Bytes.{code, HaveRoom};
ghost use Rattle.instructions.specs.Seen.{ops_of, plan_ops};
ghost use Rattle.instructions.specs.WellFormed.{IsWellFormed};
ghost use Rattle.plan.specs.Compilation.{size, size_of_items, size_of_pairs, compiled, compiled_items, compiled_pairs};
ghost use Rattle.plan.specs.Names.{bind};
ghost use Rattle.plan.specs.Seen.{names_seen, HasSomeType, IsSmall};
ghost use Rattle.plan.specs.Correct.{names_of};
ghost use Rattle.plan.specs.Values.{HasValues, HaveValues, PairsHaveValues};

use crate::code::{alone, conditional_code, followed, gathered, infix_code, joined, macro_code};
use crate::operations::{function_named, method_named, steps_between};
use crate::scope::{Names, bind, name_instruction, place_of};
use celtree::{Macro, Operator, Prefix, Tree, is_variables};
use celtypes::Env;
use instructions::{Instruction, Plan};
use std::alloc::{AllocError, Global};

// The place after the instructions of a tree that begin at `at`. The tree is named for the contract.
fn after_tree(at: usize, _tree: &Tree, code: &Vec<Instruction>) -> usize
    requires whole { length code.now.items ≡ size (view _tree.now) }
    requires room { at + size (view _tree.now) ≤ 65535 }
    ensures { result ≡ at + size (view _tree.now) }
{
    at + code.len()
}

fn after(at: usize, tree: &Box<Tree>, code: &Vec<Instruction>) -> usize
    requires whole { length code.now.items ≡ size (view tree.now.value) }
    requires room { at + size (view tree.now.value) ≤ 65535 }
    ensures { result ≡ at + size (view tree.now.value) }
{
    after_tree(at, tree, code)
}

// The instructions of the tree, from the place `at`. The clause `values` is on the tree: it was read to its end, so that its numbers
// are known to have 64 bits.
#[cycle(code_of)]
fn code_of(
    alloc: Global,
    tree: &Tree,
    at: usize,
    names: &Names<'_>,
) -> Result<Vec<Instruction>, AllocError>
    requires room { at + size (view tree.now) ≤ 65535 }
    requires few { length names.now.variables.now ≤ 65535 }
    ensures code { IfOk result (λ c. ops_of c.items ≡ compiled (view tree.now) at (names_seen names.now)) }
    ensures as_long { IfOk result (λ c. length c.items ≡ size (view tree.now)) }
    ensures values { OnOk result (HasValues (view tree.now)) }
{
    match tree {
        Tree::Null => alone(alloc, Instruction::Null),
        Tree::Bool(truth) => alone(alloc, Instruction::Bool(*truth)),
        Tree::Int(number) => alone(alloc, Instruction::Int(*number)),
        Tree::Uint(number) => alone(alloc, Instruction::Uint(*number)),
        Tree::Text(text) => alone(alloc, Instruction::Text(text.clone()?)),
        Tree::Name(name) => alone(alloc, name_instruction(name, names)),
        Tree::Field(of, name) => code_of_field(alloc, of, name, at, names),
        Tree::Has(of, name) => code_of_presence(alloc, of, name, at, names),
        Tree::Index(of, index) => code_of_index(alloc, of, index, at, names),
        Tree::List(items) => code_of_list(alloc, items, at, names),
        Tree::Map(entries) => code_of_map(alloc, entries, at, names),
        Tree::Unary(prefix, of) => code_of_unary(alloc, *prefix, of, at, names),
        Tree::Infix(operator, left, right) => {
            code_of_infix(alloc, *operator, left, right, at, names)
        }
        Tree::Conditional(test, first, second) => {
            code_of_conditional(alloc, test, first, second, at, names)
        }
        Tree::Call(name, arguments) => code_of_call(alloc, name, arguments, at, names),
        Tree::Method(of, name, arguments) => {
            code_of_method(alloc, of, name, arguments, at, names)
        }
        Tree::Macro(kind, of, variable, body) => {
            code_of_macro(alloc, *kind, of, variable, body, at, names)
        }
    }
}

#[cycle(code_of)]
fn code_of_field(
    alloc: Global,
    of: &Box<Tree>,
    name: &String,
    at: usize,
    names: &Names<'_>,
) -> Result<Vec<Instruction>, AllocError>
    requires room { at + size (expr.Field (view of.now.value) (string_bytes name.now)) ≤ 65535 }
    requires few { length names.now.variables.now ≤ 65535 }
    ensures code { IfOk result (λ c. ops_of c.items ≡ compiled (expr.Field (view of.now.value) (string_bytes name.now)) at (names_seen names.now)) }
    ensures as_long { IfOk result (λ c. length c.items ≡ size (expr.Field (view of.now.value) (string_bytes name.now))) }
    ensures values { OnOk result (HasValues (expr.Field (view of.now.value) (string_bytes name.now))) }
{
    if is_variables(of) {
        return alone(
            alloc,
            Instruction::Variable(place_of(name, names.variables)),
        );
    }
    let code = code_of(alloc, of, at, names)?;
    followed(code, Instruction::Field(name.clone()?))
}

#[cycle(code_of)]
fn code_of_presence(
    alloc: Global,
    of: &Box<Tree>,
    name: &String,
    at: usize,
    names: &Names<'_>,
) -> Result<Vec<Instruction>, AllocError>
    requires room { at + size (expr.Has (view of.now.value) (string_bytes name.now)) ≤ 65535 }
    requires few { length names.now.variables.now ≤ 65535 }
    ensures code { IfOk result (λ c. ops_of c.items ≡ compiled (expr.Has (view of.now.value) (string_bytes name.now)) at (names_seen names.now)) }
    ensures as_long { IfOk result (λ c. length c.items ≡ size (expr.Has (view of.now.value) (string_bytes name.now))) }
    ensures values { OnOk result (HasValues (expr.Has (view of.now.value) (string_bytes name.now))) }
{
    let code = code_of(alloc, of, at, names)?;
    followed(code, Instruction::Has(name.clone()?))
}

#[cycle(code_of)]
fn code_of_index(
    alloc: Global,
    of: &Box<Tree>,
    index: &Box<Tree>,
    at: usize,
    names: &Names<'_>,
) -> Result<Vec<Instruction>, AllocError>
    requires room { at + size (expr.Index (view of.now.value) (view index.now.value)) ≤ 65535 }
    requires few { length names.now.variables.now ≤ 65535 }
    ensures code { IfOk result (λ c. ops_of c.items ≡ compiled (expr.Index (view of.now.value) (view index.now.value)) at (names_seen names.now)) }
    ensures as_long { IfOk result (λ c. length c.items ≡ size (expr.Index (view of.now.value) (view index.now.value))) }
    ensures values { OnOk result (HasValues (expr.Index (view of.now.value) (view index.now.value))) }
{
    let operand = code_of(alloc, of, at, names)?;
    let index_at = after(at, of, &operand);
    let index = code_of(alloc, index, index_at, names)?;
    gathered(operand, index, Instruction::Index)
}

#[cycle(code_of)]
fn code_of_list(
    alloc: Global,
    items: &Vec<Tree>,
    at: usize,
    names: &Names<'_>,
) -> Result<Vec<Instruction>, AllocError>
    requires room { at + size (expr.Sequence (views items.now.items)) ≤ 65535 }
    requires few { length names.now.variables.now ≤ 65535 }
    ensures code { IfOk result (λ c. ops_of c.items ≡ compiled (expr.Sequence (views items.now.items)) at (names_seen names.now)) }
    ensures as_long { IfOk result (λ c. length c.items ≡ size (expr.Sequence (views items.now.items))) }
    ensures values { OnOk result (HasValues (expr.Sequence (views items.now.items))) }
{
    let code = code_of_items(alloc, items, at, names)?;
    followed(code, Instruction::List(items.len() as u16))
}

#[cycle(code_of)]
fn code_of_map(
    alloc: Global,
    entries: &Vec<(Tree, Tree)>,
    at: usize,
    names: &Names<'_>,
) -> Result<Vec<Instruction>, AllocError>
    requires room { at + size (expr.Mapping (pair_views entries.now.items)) ≤ 65535 }
    requires few { length names.now.variables.now ≤ 65535 }
    ensures code { IfOk result (λ c. ops_of c.items ≡ compiled (expr.Mapping (pair_views entries.now.items)) at (names_seen names.now)) }
    ensures as_long { IfOk result (λ c. length c.items ≡ size (expr.Mapping (pair_views entries.now.items))) }
    ensures values { OnOk result (HasValues (expr.Mapping (pair_views entries.now.items))) }
{
    let code = code_of_pairs(alloc, entries, at, names)?;
    followed(code, Instruction::Map(entries.len() as u16))
}

#[cycle(code_of)]
fn code_of_unary(
    alloc: Global,
    prefix: Prefix,
    of: &Box<Tree>,
    at: usize,
    names: &Names<'_>,
) -> Result<Vec<Instruction>, AllocError>
    requires room { at + size (expr.Unary prefix (view of.now.value)) ≤ 65535 }
    requires few { length names.now.variables.now ≤ 65535 }
    ensures code { IfOk result (λ c. ops_of c.items ≡ compiled (expr.Unary prefix (view of.now.value)) at (names_seen names.now)) }
    ensures as_long { IfOk result (λ c. length c.items ≡ size (expr.Unary prefix (view of.now.value))) }
    ensures values { OnOk result (HasValues (expr.Unary prefix (view of.now.value))) }
{
    let code = code_of(alloc, of, at, names)?;
    followed(code, Instruction::Unary(prefix))
}

#[cycle(code_of)]
fn code_of_infix(
    alloc: Global,
    operator: Operator,
    left: &Box<Tree>,
    right: &Box<Tree>,
    at: usize,
    names: &Names<'_>,
) -> Result<Vec<Instruction>, AllocError>
    requires room { at + size (expr.Infix operator (view left.now.value) (view right.now.value)) ≤ 65535 }
    requires few { length names.now.variables.now ≤ 65535 }
    ensures code { IfOk result (λ c. ops_of c.items ≡ compiled (expr.Infix operator (view left.now.value) (view right.now.value)) at (names_seen names.now)) }
    ensures as_long { IfOk result (λ c. length c.items ≡ size (expr.Infix operator (view left.now.value) (view right.now.value))) }
    ensures values { OnOk result (HasValues (expr.Infix operator (view left.now.value) (view right.now.value))) }
{
    let first = code_of(alloc, left, at, names)?;
    let right_at = after(at, left, &first) + steps_between(operator);
    let second = code_of(alloc, right, right_at, names)?;
    let end = after(right_at, right, &second) + 1;
    infix_code(operator, first, second, end as u16)
}

#[cycle(code_of)]
fn code_of_conditional(
    alloc: Global,
    test: &Box<Tree>,
    first: &Box<Tree>,
    second: &Box<Tree>,
    at: usize,
    names: &Names<'_>,
) -> Result<Vec<Instruction>, AllocError>
    requires room { at + size (expr.Conditional (view test.now.value) (view first.now.value) (view second.now.value)) ≤ 65535 }
    requires few { length names.now.variables.now ≤ 65535 }
    ensures code { IfOk result (λ c. ops_of c.items ≡ compiled (expr.Conditional (view test.now.value) (view first.now.value) (view second.now.value)) at (names_seen names.now)) }
    ensures as_long { IfOk result (λ c. length c.items ≡ size (expr.Conditional (view test.now.value) (view first.now.value) (view second.now.value))) }
    ensures values { OnOk result (HasValues (expr.Conditional (view test.now.value) (view first.now.value) (view second.now.value))) }
{
    let start = code_of(alloc, test, at, names)?;
    let first_at = after(at, test, &start) + 1;
    let middle = code_of(alloc, first, first_at, names)?;
    let second_at = after(first_at, first, &middle) + 1;
    let rest = code_of(alloc, second, second_at, names)?;
    let end = after(second_at, second, &rest);
    conditional_code(start, middle, rest, second_at as u16, end as u16)
}

#[cycle(code_of)]
fn code_of_call(
    alloc: Global,
    name: &String,
    arguments: &Vec<Tree>,
    at: usize,
    names: &Names<'_>,
) -> Result<Vec<Instruction>, AllocError>
    requires room { at + size (expr.Call (string_bytes name.now) (views arguments.now.items)) ≤ 65535 }
    requires few { length names.now.variables.now ≤ 65535 }
    ensures code { IfOk result (λ c. ops_of c.items ≡ compiled (expr.Call (string_bytes name.now) (views arguments.now.items)) at (names_seen names.now)) }
    ensures as_long { IfOk result (λ c. length c.items ≡ size (expr.Call (string_bytes name.now) (views arguments.now.items))) }
    ensures values { OnOk result (HasValues (expr.Call (string_bytes name.now) (views arguments.now.items))) }
{
    let code = code_of_items(alloc, arguments, at, names)?;
    followed(code, Instruction::Call(function_named(name)))
}

#[cycle(code_of)]
fn code_of_method(
    alloc: Global,
    of: &Box<Tree>,
    name: &String,
    arguments: &Vec<Tree>,
    at: usize,
    names: &Names<'_>,
) -> Result<Vec<Instruction>, AllocError>
    requires room { at + size (expr.Method (view of.now.value) (string_bytes name.now) (views arguments.now.items)) ≤ 65535 }
    requires few { length names.now.variables.now ≤ 65535 }
    ensures code { IfOk result (λ c. ops_of c.items ≡ compiled (expr.Method (view of.now.value) (string_bytes name.now) (views arguments.now.items)) at (names_seen names.now)) }
    ensures as_long { IfOk result (λ c. length c.items ≡ size (expr.Method (view of.now.value) (string_bytes name.now) (views arguments.now.items))) }
    ensures values { OnOk result (HasValues (expr.Method (view of.now.value) (string_bytes name.now) (views arguments.now.items))) }
{
    let operand = code_of(alloc, of, at, names)?;
    let arguments_at = after(at, of, &operand);
    let rest = code_of_items(alloc, arguments, arguments_at, names)?;
    gathered(operand, rest, Instruction::Call(method_named(name)))
}

#[cycle(code_of)]
fn code_of_macro(
    alloc: Global,
    kind: Macro,
    of: &Box<Tree>,
    variable: &String,
    body: &Box<Tree>,
    at: usize,
    names: &Names<'_>,
) -> Result<Vec<Instruction>, AllocError>
    requires room { at + size (expr.Over kind (view of.now.value) (string_bytes variable.now) (view body.now.value)) ≤ 65535 }
    requires few { length names.now.variables.now ≤ 65535 }
    ensures code { IfOk result (λ c. ops_of c.items ≡ compiled (expr.Over kind (view of.now.value) (string_bytes variable.now) (view body.now.value)) at (names_seen names.now)) }
    ensures as_long { IfOk result (λ c. length c.items ≡ size (expr.Over kind (view of.now.value) (string_bytes variable.now) (view body.now.value))) }
    ensures values { OnOk result (HasValues (expr.Over kind (view of.now.value) (string_bytes variable.now) (view body.now.value))) }
{
    let operand = code_of(alloc, of, at, names)?;
    let body_at = after(at, of, &operand) + 1;
    let inside = code_of_body(alloc, body, variable, body_at, names)?;
    let end = after(body_at, body, &inside);
    macro_code(kind, operand, inside, end as u16)
}

// The instructions of a macro's body.
#[cycle(code_of)]
fn code_of_body(
    alloc: Global,
    body: &Box<Tree>,
    variable: &str,
    at: usize,
    names: &Names<'_>,
) -> Result<Vec<Instruction>, AllocError>
    requires room { at + size (view body.now.value) ≤ 65535 }
    requires few { length names.now.variables.now ≤ 65535 }
    ensures code { IfOk result (λ c. ops_of c.items ≡ compiled (view body.now.value) at (bind variable.now (names_seen names.now))) }
    ensures as_long { IfOk result (λ c. length c.items ≡ size (view body.now.value)) }
    ensures values { OnOk result (HasValues (view body.now.value)) }
{
    let locals = bind(alloc, variable, names.locals)?;
    let inner = Names {
        locals: &locals,
        variables: names.variables,
    };
    code_of(alloc, body, at, &inner)
}

#[cycle(code_of)]
fn code_of_items(
    alloc: Global,
    items: &Vec<Tree>,
    at: usize,
    names: &Names<'_>,
) -> Result<Vec<Instruction>, AllocError>
    requires room { at + size_of_items (views items.now.items) ≤ 65535 }
    requires few { length names.now.variables.now ≤ 65535 }
    ensures code { IfOk result (λ c. ops_of c.items ≡ compiled_items (views items.now.items) at (names_seen names.now)) }
    ensures as_long { IfOk result (λ c. length c.items ≡ size_of_items (views items.now.items)) }
    ensures values { OnOk result (HaveValues (views items.now.items)) }
{
    let mut code = Vec::new(alloc);
    for item in items {
        let more = code_of(alloc, item, at + code.len(), names)?;
        code = joined(code, more)?;
    }
    Ok(code)
}

#[cycle(code_of)]
fn code_of_pairs(
    alloc: Global,
    entries: &Vec<(Tree, Tree)>,
    at: usize,
    names: &Names<'_>,
) -> Result<Vec<Instruction>, AllocError>
    requires room { at + size_of_pairs (pair_views entries.now.items) ≤ 65535 }
    requires few { length names.now.variables.now ≤ 65535 }
    ensures code { IfOk result (λ c. ops_of c.items ≡ compiled_pairs (pair_views entries.now.items) at (names_seen names.now)) }
    ensures as_long { IfOk result (λ c. length c.items ≡ size_of_pairs (pair_views entries.now.items)) }
    ensures values { OnOk result (PairsHaveValues (pair_views entries.now.items)) }
{
    let mut code = Vec::new(alloc);
    for entry in entries {
        let more = code_of_pair(alloc, entry, at + code.len(), names)?;
        code = joined(code, more)?;
    }
    Ok(code)
}

// A key and its value.
#[cycle(code_of)]
fn code_of_pair(
    alloc: Global,
    entry: &(Tree, Tree),
    at: usize,
    names: &Names<'_>,
) -> Result<Vec<Instruction>, AllocError>
    requires room { at + size (view entry.now.0) + size (view entry.now.1) ≤ 65535 }
    requires few { length names.now.variables.now ≤ 65535 }
    ensures code { IfOk result (λ c. ops_of c.items ≡ compiled (view entry.now.0) at (names_seen names.now) ++ compiled (view entry.now.1) (at + size (view entry.now.0)) (names_seen names.now)) }
    ensures as_long { IfOk result (λ c. length c.items ≡ size (view entry.now.0) + size (view entry.now.1)) }
    ensures values { OnOk result (HasValues (view entry.now.0) × HasValues (view entry.now.1)) }
{
    let key = code_of(alloc, &entry.0, at, names)?;
    let value_at = after_tree(at, &entry.0, &key);
    let value = code_of(alloc, &entry.1, value_at, names)?;
    joined(key, value)
}

/// The instructions of a tree that has a type under the declarations, and is no larger than a text of 4096 bytes can spell, with
/// macros at most two deep. The plan is well formed for a place with the declared variables.
///
/// `celread` reads no other tree (`cellaws::read_trees_are_small`), and no policy declares more than 65,535 variables.
///
/// The plan has bytes: two for the number of its instructions, at most 16 for each node of the tree, and those of the tree's strings
/// and field names.
///
/// # Errors
///
/// Out of memory.
pub fn compile(alloc: Global, tree: &Tree, env: &Env<'_>) -> Result<Plan, AllocError>
    requires typed { HasSomeType (declared env.now) (view tree.now) }
    requires small { IsSmall (view tree.now) }
    requires few { length env.now.variables.now ≤ 65535 }
    ensures code { IfOk result (λ p. plan_ops p ≡ compiled (view tree.now) 0 (names_of (declared env.now))) }
    ensures room { IfOk result (λ p. HaveRoom (plan_ops p)) }
    ensures short { IfOk result (λ p. length (code (plan_ops p)) ≤ 2 + 16 * nodes (view tree.now) + text_bytes (view tree.now)) }
    ensures well_formed { IfOk result (λ p. IsWellFormed (length env.now.variables.now) (plan_ops p)) }
{
    let names = Names {
        locals: &[],
        variables: env.variables,
    };
    Ok(Plan {
        instructions: code_of(alloc, tree, 0, &names)?,
    })
}
