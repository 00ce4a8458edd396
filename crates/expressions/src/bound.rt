//! A binding, with the key of its policy.

ghost use Rattle.std.specs.Prelude.{◌≡◌, IfOk};
ghost use Rattle.serde_json.specs.View.{view};
ghost use Rattle.policy.specs.Bindings.{binding_of};
ghost use Rattle.policy.specs.Spec.{binding_seen};
ghost use Rattle.expressions.specs.Bindings.{policy_key};

use names::{Key, KeyFault, Resource};
use policy::Binding;
use serde_json::Value as Json;
use std::alloc::{AllocError, Global};
use std::marker::Model;

/// A binding, and the key of the policy that it binds.
#[derive(Drop)]
pub struct Bound {
    binding: Binding,
    key: Key,
}

impl Model for Bound {
    ghost use Rattle.std.specs.Prelude.{◌≡◌, string_bytes};
    ghost use Rattle.policy.specs.Spec as spec;
    ghost use Rattle.policy.specs.Spec.{binding_seen};
    ghost use Rattle.expressions.specs.Bindings.{policy_key};

    ghost Value = { spec.Binding };

    ghost view = { λ b. binding_seen b.binding };

    ghost invariant = { λ b. b.key ≡ policy_key (string_bytes b.binding.policy) };
}

impl Bound {
    /// The binding that a document spells: `None` where the document has not the form of one.
    ///
    /// # Errors
    ///
    /// Out of memory.
    pub fn of(alloc: Global, document: &Json) -> Result<Option<Bound>, AllocError>
        ensures { IfOk result (λ o. o ≡ binding_of (view document.now)) }
    {
        match Binding::of(alloc, document)? {
            Some(binding) => {
                let name = binding.policy.as_str();
                match Key::new(alloc, Resource::ValidatingAdmissionPolicy, "", name) {
                    Ok(key) => Ok(Some(Bound { binding, key })),
                    Err(KeyFault::NoKey) => unreachable!("a bound policy has a well-formed name"),
                    Err(KeyFault::Memory) => Err(AllocError),
                }
            }
            None => Ok(None),
        }
    }

    /// What the binding says.
    pub fn binding(&self) -> &Binding
        ensures { binding_seen result.now ≡ self.now }
    {
        &self.binding
    }

    /// The key of its policy.
    pub fn policy_key(&self) -> &Key
        ensures { result.now ≡ policy_key self.now.policy }
    {
        &self.key
    }
}
