//! Instructions and plans.

use celtree::{Macro, Prefix};

/// A name that is declared for each expression.
#[derive(Clone, Copy, Debug)]
pub enum Name {
    /// `object`
    Object,
    /// `oldObject`
    OldObject,
    /// `request`
    Request,
    /// `params`
    Params,
    /// `namespaceObject`
    NamespaceObject,
}

/// The variable of a macro: macros nest at most two deep.
#[derive(Clone, Copy, Debug)]
pub enum Slot {
    /// The variable of the macro that stands in no other.
    Outer,
    /// The variable of the macro that stands in another.
    Inner,
}

/// An operator between two operands that looks at both.
#[derive(Clone, Copy, Debug)]
pub enum Binary {
    /// `+`
    Add,
    /// `-`
    Subtract,
    /// `*`
    Multiply,
    /// `/`
    Divide,
    /// `%`
    Remainder,
    /// `==`
    Equal,
    /// `!=`
    NotEqual,
    /// `<`
    Less,
    /// `<=`
    LessEqual,
    /// `>`
    Greater,
    /// `>=`
    GreaterEqual,
    /// `in`
    In,
}

/// A function: of one operand, or of two texts.
#[derive(Clone, Copy, Debug)]
pub enum Function {
    /// `size(e)`
    Size,
    /// `s.contains(t)`
    Contains,
    /// `s.startsWith(t)`
    StartsWith,
    /// `s.endsWith(t)`
    EndsWith,
    /// `int(e)`
    Int,
    /// `uint(e)`
    Uint,
    /// `string(e)`
    Text,
    /// `dyn(e)`
    Dyn,
}

/// One instruction. It takes outcomes from the top of the stack and puts one there, if nothing else is said.
#[derive(Drop)]
pub enum Instruction {
    /// Puts a signed number.
    Int(i64),
    /// Puts an unsigned number.
    Uint(u64),
    /// Puts a text.
    Text(String),
    /// Puts a truth value.
    Bool(bool),
    /// Puts `null`.
    Null,
    /// Puts what a declared name stands for.
    Name(Name),
    /// Puts the variable with this place among the policy's variables, counted from 0.
    Variable(u16),
    /// Puts the variable of a macro.
    Slot(Slot),
    /// Takes a map and puts the value under this key.
    Field(String),
    /// Takes a map and puts whether it has this key.
    Has(String),
    /// Takes a list or a map and an index.
    Index,
    /// Takes this many items and puts their list.
    List(u16),
    /// Takes this many keys and values and puts their map.
    Map(u16),
    /// Takes the operand of `!` or `-`.
    Unary(Prefix),
    /// Takes two operands.
    Binary(Binary),
    /// Takes the operands of a function.
    Call(Function),
    /// Takes the two sides of `&&`.
    And,
    /// Takes the two sides of `||`.
    Or,
    /// Goes to the target if the top is false, and takes nothing.
    IfFalse(u16),
    /// Goes to the target if the top is true, and takes nothing.
    IfTrue(u16),
    /// Takes a truth value: true goes on, false goes to the first target. What is none puts the error and goes to the second.
    Branch(u16, u16),
    /// Goes to the target, and takes nothing.
    Jump(u16),
    /// Takes a list or a map, and goes over its items or keys with the instructions up to the target, which give one outcome for
    /// each; goes on at the target.
    Macro(Macro, u16),
}

/// A compiled expression.
#[derive(Drop)]
pub struct Plan {
    /// The instructions, in order.
    pub instructions: Vec<Instruction>,
}
