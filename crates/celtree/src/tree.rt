//! The tree of an expression.

/// An operator before its operand.
#[derive(Clone, Copy, Debug)]
pub enum Prefix {
    /// `!`
    Not,
    /// `-`
    Negate,
}

/// An operator between two operands.
#[derive(Clone, Copy, Debug)]
pub enum Operator {
    /// `*`
    Multiply,
    /// `/`
    Divide,
    /// `%`
    Remainder,
    /// `+`
    Add,
    /// `-`
    Subtract,
    /// `<`
    Less,
    /// `<=`
    LessEqual,
    /// `>`
    Greater,
    /// `>=`
    GreaterEqual,
    /// `==`
    Equal,
    /// `!=`
    NotEqual,
    /// `in`
    In,
    /// `&&`
    And,
    /// `||`
    Or,
}

/// A call that binds a variable to each item of a list, or to each key of a map.
#[derive(Clone, Copy, Debug)]
pub enum Macro {
    /// Whether the body is true for all items.
    All,
    /// Whether the body is true for some item.
    Exists,
    /// Whether the body is true for one item and no other.
    ExistsOne,
    /// The body for each item.
    Map,
    /// The items for which the body is true.
    Filter,
}

/// The tree of an expression.
#[derive(Drop)]
pub enum Tree {
    /// `null`
    Null,
    /// `true` or `false`
    Bool(bool),
    /// A signed literal.
    Int(i64),
    /// An unsigned literal.
    Uint(u64),
    /// A string literal.
    Text(String),
    /// A name.
    Name(String),
    /// `e.f`
    Field(Box<Tree>, String),
    /// `has(e.f)`
    Has(Box<Tree>, String),
    /// `e[x]`
    Index(Box<Tree>, Box<Tree>),
    /// `[a, b]`
    List(Vec<Tree>),
    /// `{a: b}`
    Map(Vec<(Tree, Tree)>),
    /// `!e` or `-e`
    Unary(Prefix, Box<Tree>),
    /// `a + b` and the like.
    Infix(Operator, Box<Tree>, Box<Tree>),
    /// `c ? a : b`
    Conditional(Box<Tree>, Box<Tree>, Box<Tree>),
    /// `f(a, b)`
    Call(String, Vec<Tree>),
    /// `e.f(a, b)`
    Method(Box<Tree>, String, Vec<Tree>),
    /// `e.all(x, body)` and the like.
    Macro(Macro, Box<Tree>, String, Box<Tree>),
}
