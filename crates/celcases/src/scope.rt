//! The variables that expressions may name.

use celtypes::{CelType, Variable};
use std::alloc::{AllocError, Global};

/// The names of the variables that are declared for the rows of a file's ending: none in the bare scope.
pub(crate) fn variable_names(asked: &str, is_bare: bool) -> &'static [&'static str] {
    match asked {
        _ if is_bare => &[],
        "types" => &["n", "names", "any"],
        "values" | "plans" => &["fine", "broken", "last"],
        _ => &["a", "b"],
    }
}

// A variable: `n` is of type int, `names` of type list(string), each other of type dyn.
fn variable(alloc: Global, name: &str) -> Result<Variable, AllocError> {
    let value_type = match name {
        "n" => CelType::Int,
        "names" => CelType::List(Box::new(alloc, CelType::Text)?),
        _ => CelType::Dyn,
    };
    Ok(Variable {
        name: String::from_str(alloc, name)?,
        value_type,
    })
}

/// Variables of these names.
pub(crate) fn variables(
    alloc: Global,
    names: &[&'static str],
) -> Result<Vec<Variable>, AllocError> {
    let mut variables = Vec::new(alloc);
    for name in names {
        variables.push(variable(alloc, name)?)?;
    }
    Ok(variables)
}
