//! Names and their values.

ghost use Rattle.std.specs.Prelude.{◌≡◌, ◌∷◌, IfOk};
ghost use Rattle.celmean.specs.Meaning.{bound};
ghost use Rattle.celmean.specs.Seen.{outcome_of};
ghost use Rattle.celplain.specs.Seen.{bindings_seen};

use celmean::{Outcome, Value};
use std::alloc::{AllocError, Global};

/// A name, and the value that it stands for: none, where it stands for the error.
#[derive(Clone, Copy)]
pub struct Binding<'a> {
    /// The name.
    pub name: &'a str,
    /// The value.
    pub value: Option<&'a Value>,
}

/// What the names of an expression stand for.
#[derive(Clone, Copy)]
pub struct Environment<'a> {
    /// `object`, `request` and the like, and the variables of macros, the innermost first.
    pub names: &'a [Binding<'a>],
    /// What stands after `variables.`
    pub variables: &'a [Binding<'a>],
}

/// A copy of what the name stands for. An unbound name is the error.
pub(crate) fn bound(name: &str, bindings: &[Binding<'_>]) -> Result<Outcome, AllocError>
    ensures { IfOk result (λ o. outcome_of o ≡ bound name.now (bindings_seen bindings.now)) }
{
    for binding in bindings {
        if name == binding.name {
            return match binding.value {
                Some(value) => Ok(Outcome::Gives(value.clone()?)),
                None => Ok(Outcome::Error),
            };
        }
    }
    Ok(Outcome::Error)
}

/// The bindings after one more.
pub(crate) fn bind<'a>(
    alloc: Global,
    first: Binding<'a>,
    bindings: &[Binding<'a>],
) -> Result<Vec<Binding<'a>>, AllocError>
    ensures { IfOk result (λ v. v.items ≡ first.entry ∷ bindings.now) }
{
    let mut all = Vec::new(alloc);
    all.push(first)?;
    for binding in bindings {
        all.push(*binding)?;
    }
    Ok(all)
}
