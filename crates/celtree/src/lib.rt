//! The tree of an expression of the Common Expression Language (CEL).
//!
//! [`Tree`] is what reading a text gives, and what is typed, evaluated and compiled. `specs/Tree.antt` says what it is as pure data, and
//! `specs/View.antt` which pure tree a program's tree stands for. [`call`] gives the tree of `name(arguments)`, and [`method`] that of
//! `of.name(arguments)`: `has` and the macros of the CEL language definition are told by their names and by the trees of their arguments
//! (`specs/Calls.antt`). The contracts of both say so in both directions: a tree is given where the call has one, and that one, and none
//! where it has none. Beside them stands what several crates say of trees and of the texts in them: how large a tree is
//! (`specs/Size.antt`), how deep its macros nest (`specs/Nesting.antt`), which characters are digits (`specs/Digits.antt`), and after which
//! name a policy's variables stand ([`is_variables`]).
#![tactic(auto)]

mod calls;
mod tree;
mod variables;

pub use calls::{call, method};
pub use tree::{Macro, Operator, Prefix, Tree};
pub use variables::is_variables;
