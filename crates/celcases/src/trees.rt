//! Trees as rows have them.

use crate::texts::{put, show};
use celread::{ReadFault, read};
use celtree::{Macro, Operator, Prefix, Tree};
use std::alloc::Global;

fn operator_sign(operator: Operator) -> &'static str {
    match operator {
        Operator::Multiply => "*",
        Operator::Divide => "/",
        Operator::Remainder => "%",
        Operator::Add => "+",
        Operator::Subtract => "-",
        Operator::Less => "<",
        Operator::LessEqual => "<=",
        Operator::Greater => ">",
        Operator::GreaterEqual => ">=",
        Operator::Equal => "==",
        Operator::NotEqual => "!=",
        Operator::In => "in",
        Operator::And => "&&",
        Operator::Or => "||",
    }
}

fn macro_name(kind: Macro) -> &'static str {
    match kind {
        Macro::All => "all",
        Macro::Exists => "exists",
        Macro::ExistsOne => "exists_one",
        Macro::Map => "map",
        Macro::Filter => "filter",
    }
}

fn prefix_sign(prefix: Prefix) -> &'static str {
    match prefix {
        Prefix::Not => "!",
        Prefix::Negate => "-",
    }
}

// A tree without trees in it.
fn put_leaf(out: &mut String, tree: &Tree) {
    match tree {
        Tree::Null => put(out, "null"),
        Tree::Bool(true) => put(out, "true"),
        Tree::Bool(false) => put(out, "false"),
        Tree::Int(value) => show(out, value),
        Tree::Uint(value) => {
            show(out, value);
            put(out, "u");
        }
        Tree::Text(text) => put_between(out, "\"", text, "\""),
        Tree::Name(name) => put(out, name),
        _ => put(out, "?"),
    }
}

// An operation in brackets, the operator between its operands.
#[cycle(put)]
fn put_operation(out: &mut String, tree: &Tree) {
    match tree {
        Tree::Unary(prefix, of) => {
            put_between(out, "(", prefix_sign(*prefix), "");
            put_within(out, " ", of, ")");
        }
        Tree::Infix(operator, left, right) => {
            put_within(out, "(", left, " ");
            put(out, operator_sign(*operator));
            put_within(out, " ", right, ")");
        }
        Tree::Conditional(test, first, second) => {
            put_within(out, "(", test, " ? ");
            put_tree(out, first);
            put_within(out, " : ", second, ")");
        }
        Tree::Macro(kind, of, variable, body) => {
            put_within(out, "(", of, " ");
            put(out, macro_name(*kind));
            put_between(out, " ", variable, " ");
            put_within(out, "", body, ")");
        }
        _ => put_leaf(out, tree),
    }
}

// A tree: what is selected, listed or called as it is written, an operation in brackets.
#[cycle(put)]
fn put_tree(out: &mut String, tree: &Tree) {
    match tree {
        Tree::Field(of, name) => {
            put_within(out, "", of, ".");
            put(out, name);
        }
        Tree::Has(of, name) => {
            put_within(out, "(has ", of, ".");
            put_between(out, "", name, ")");
        }
        Tree::Index(of, index) => {
            put_tree(out, of);
            put_within(out, "[", index, "]");
        }
        Tree::List(items) => put_trees(out, "[", items, " ]"),
        Tree::Map(entries) => put_entries(out, entries),
        Tree::Call(name, arguments) => {
            put(out, name);
            put_trees(out, "(", arguments, " )");
        }
        Tree::Method(of, name, arguments) => {
            put_within(out, "", of, ".");
            put(out, name);
            put_trees(out, "(", arguments, " )");
        }
        _ => put_operation(out, tree),
    }
}

fn put_between(out: &mut String, before: &str, part: &str, after: &str) {
    put(out, before);
    put(out, part);
    put(out, after);
}

#[cycle(put)]
fn put_within(out: &mut String, before: &str, tree: &Tree, after: &str) {
    put(out, before);
    put_tree(out, tree);
    put(out, after);
}

#[cycle(put)]
fn put_trees(out: &mut String, before: &str, trees: &Vec<Tree>, after: &str) {
    put(out, before);
    for tree in trees {
        put_within(out, " ", tree, "");
    }
    put(out, after);
}

#[cycle(put)]
fn put_entries(out: &mut String, entries: &Vec<(Tree, Tree)>) {
    put(out, "{");
    for (key, value) in entries {
        put_within(out, " ", key, ": ");
        put_tree(out, value);
    }
    put(out, " }");
}

fn fault_word(fault: &ReadFault) -> &'static str {
    match fault {
        ReadFault::TooLong => "too long",
        ReadFault::TooDeep => "too deep",
        ReadFault::NotInGrammar => "no",
        ReadFault::Memory => "memory",
    }
}

/// The tree of a text as it is written in a row, or why there is none.
pub(crate) fn tree_text(alloc: Global, text: &str) -> String {
    let mut out = String::new(alloc);
    match read(alloc, text) {
        Ok(tree) => put_tree(&mut out, &tree),
        Err(fault) => put(&mut out, fault_word(&fault)),
    }
    out
}
