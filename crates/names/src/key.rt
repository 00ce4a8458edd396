ghost use Rattle.std.specs.Prelude.{◌≡◌, ◌≢◌, ◌↔◌, ℕ, List, ◌∷◌, ◌++◌, false, IsTrue, IfOk, IfSome, IsSomeAnd};
ghost use Rattle.names.specs.KeyParts.{IsPlain};
ghost use Rattle.names.specs.declared.key.KeyFault.TheVariants.{Memory};

use crate::name::{check_name_of, check_namespace};
use crate::resource::{Resource, ResourceTable, Scope};
use std::alloc::{AllocError, Global};
use std::cmp::Ordering;
use std::error::Error;
use std::fmt;
use std::marker::Model;

/// Why there is no key.
#[derive(Clone, Copy, Debug)]
pub enum KeyFault {
    /// What was given is no key.
    NoKey,
    /// Out of memory.
    Memory,
}

impl fmt::Display for KeyFault {
    fn fmt<W: fmt::Write>(&self, f: &mut fmt::Formatter<W>) -> fmt::Result {
        f.write_str(match self {
            KeyFault::NoKey => "no key of an object",
            KeyFault::Memory => "out of memory",
        })
    }
}

impl Error for KeyFault {}

impl From<AllocError> for KeyFault {
    ghost from_gives = { λ _ fault. fault ≡ Memory };

    fn from(_error: AllocError) -> KeyFault {
        KeyFault::Memory
    }
}

// The texts before and after the first zero byte, if the bytes are UTF-8 and hold one.
fn split_at_zero(bytes: &[u8]) -> Option<(&str, &str)>
    ensures parts { IfSome result (λ parts. parts.0.now ++ 0 ∷ parts.1.now ≡ bytes.now) }
    ensures plain { (front back : List ℕ) → IsPlain front → IsPlain back
        → front ++ 0 ∷ back ≡ bytes.now
        → IsSomeAnd result (λ parts. (parts.0.now ≡ front) × (parts.1.now ≡ back)) }
{
    let text = str::from_utf8(bytes).ok()?;
    text.split_once('\0')
}

/// The key of an object: its resource, its namespace and its name.
///
/// The namespace of a cluster-scoped resource's key is empty. Keys are ordered by the number of
/// the resource, then by namespace, then by name, both by bytes.
pub struct Key {
    resource: Resource,
    namespace: String,
    name: String,
}

// Hand-written: derived drop glue is proved again in each crate.
impl Drop for Key {
    fn drop(self) {
        let Key {
            resource: _,
            namespace: _,
            name: _,
        } = self;
    }
}

impl Model for Key {
    ghost use Rattle.names.specs.Key.{Key as KeyData};

    ghost Value = { KeyData };

    ghost use Rattle.std.specs.Prelude.{string_bytes, IsTrue};
    ghost use Rattle.names.specs.Key.{is_key, key_of};

    ghost view = { λ k. key_of k.resource (string_bytes k.namespace) (string_bytes k.name) };

    ghost invariant = { λ k.
        IsTrue (is_key (key_of k.resource (string_bytes k.namespace) (string_bytes k.name))) };
}

impl Key {
    ghost use Rattle.names.specs.Key.{Key as KeyData, is_key, key_of, key_bytes, key_cmp};

    /// The key of these parts. `NoKey` where the name is ill-formed, or the namespace does not fit
    /// the resource's scope.
    pub fn new(
        alloc: Global,
        resource: Resource,
        namespace: &str,
        name: &str,
    ) -> Result<Key, KeyFault>
        ensures value { IfOk result (λ k. k ≡ key_of resource namespace.now name.now) }
        ensures key { IfOk result (λ k. IsTrue (is_key k)) }
        ensures no_key { (result ≡ Err KeyFault.NoKey)
            ↔ (is_key (key_of resource namespace.now name.now) ≡ false) }
    {
        let fits_scope = match resource.scope() {
            Scope::Namespaced => check_namespace(namespace),
            Scope::Cluster => namespace.is_empty(),
        };
        if !fits_scope || !check_name_of(resource, name) {
            return Err(KeyFault::NoKey);
        }
        Ok(Key {
            resource,
            namespace: String::from_str(alloc, namespace)?,
            name: String::from_str(alloc, name)?,
        })
    }

    /// The key whose bytes these are. `NoKey` where no well-formed key has them.
    pub fn read(alloc: Global, bytes: &[u8]) -> Result<Key, KeyFault>
        ensures value { IfOk result (λ k. key_bytes k ≡ bytes.now) }
        ensures key { IfOk result (λ k. IsTrue (is_key k)) }
        ensures no_key { result ≡ Err KeyFault.NoKey
            → (k : KeyData) → IsTrue (is_key k) → key_bytes k ≢ bytes.now }
    {
        let Some((number, parts)) = bytes.split_first() else {
            return Err(KeyFault::NoKey);
        };
        let Some(resource) = ResourceTable::numbered(*number) else {
            return Err(KeyFault::NoKey);
        };
        let Some((namespace, name)) = split_at_zero(parts) else {
            return Err(KeyFault::NoKey);
        };
        Key::new(alloc, resource, namespace, name)
    }

    /// The resource of the object.
    pub fn resource(&self) -> Resource
        ensures value { result ≡ self.now.resource }
        ensures key { IsTrue (is_key self.now) }
    {
        self.resource
    }

    /// The namespace of the object, which is empty where the resource is cluster-scoped.
    pub fn namespace(&self) -> &str
        ensures value { result.now ≡ self.now.namespace }
        ensures key { IsTrue (is_key self.now) }
    {
        &self.namespace
    }

    /// The name of the object.
    pub fn name(&self) -> &str
        ensures value { result.now ≡ self.now.name }
        ensures key { IsTrue (is_key self.now) }
    {
        &self.name
    }

    // How the key stands to another. A search compares many keys: what stands after the first part that differs is not looked at.
    fn order(&self, other: &Key) -> Ordering
        ensures { result ≡ key_cmp self.now other.now }
    {
        match self.resource.number().cmp(&other.resource.number()) {
            Ordering::Equal => match self.namespace.as_str().cmp(other.namespace.as_str()) {
                Ordering::Equal => self.name.as_str().cmp(other.name.as_str()),
                order => order,
            },
            order => order,
        }
    }

    /// The key's bytes: the resource's number, the namespace, a zero byte, the name.
    pub fn bytes(&self, alloc: Global) -> Result<Vec<u8>, AllocError>
        ensures { IfOk result (λ bytes. bytes.items ≡ key_bytes self.now) }
    {
        let mut bytes = Vec::from_slice(alloc, &[self.resource.number()])?;
        bytes.extend_from_slice(self.namespace.as_bytes())?;
        bytes.push(0)?;
        bytes.extend_from_slice(self.name.as_bytes())?;
        Ok(bytes)
    }
}

impl Clone for Key {
    ghost use Rattle.std.specs.Prelude.{◌≡◌};

    ghost is_clone = { λ key copy. copy ≡ key };

    fn clone(&self) -> Result<Key, AllocError> {
        Ok(Key {
            resource: self.resource,
            namespace: self.namespace.clone()?,
            name: self.name.clone()?,
        })
    }
}

impl Ord for Key {
    ghost use Rattle.std.specs.Prelude.{◌≡◌, IsTrue, refl};
    ghost use Rattle.std.specs.Cmp.Lexicographic.{slice_cmp};
    ghost use Rattle.std.specs.Ordering.{nat_cmp};
    ghost use Rattle.names.specs.Key.{Key as KeyData, is_key, key_bytes, key_cmp};
    ghost use Rattle.names.specs.KeyLaws.{key_cmp_total};

    ghost cmp = { key_cmp };

    ghost total = { key_cmp_total };

    ghost matches_partial_cmp = { λ _ _. refl };

    ghost matches_eq = { λ _ _. refl };

    fn cmp(&self, other: &Key) -> Ordering
        ensures value { result ≡ key_cmp self.now other.now }

        // Only equal keys tie.
        ensures same { (a b : KeyData) → key_cmp a b ≡ Ordering.Equal → a ≡ b }

        // Each key has one spelling.
        ensures spelling { (a b : KeyData) → IsTrue (is_key a) → IsTrue (is_key b)
            → key_bytes a ≡ key_bytes b → a ≡ b }

        // Byte by byte, the bytes of keys are in the order of the keys.
        ensures bytes { (a b : KeyData) → IsTrue (is_key a) → IsTrue (is_key b)
            → slice_cmp nat_cmp (key_bytes a) (key_bytes b) ≡ key_cmp a b }
    {
        self.order(other)
    }
}

impl PartialOrd for Key {
    ghost use Rattle.std.specs.Prelude.{Some, refl};
    ghost use Rattle.std.specs.Cmp.{po};
    ghost use Rattle.names.specs.Key.{key_cmp};
    ghost use Rattle.names.specs.KeyLaws.{key_cmp_total};

    ghost partial_cmp = { λ x y. Some (key_cmp x y) };

    ghost laws = { po key_cmp_total (λ _ _. refl) };

    fn partial_cmp(&self, other: &Key) -> Option<Ordering> {
        Some(self.cmp(other))
    }
}

impl PartialEq for Key {
    ghost use Rattle.std.specs.Cmp.{partial_equiv_from_equiv, eq_by_cmp_equiv};
    ghost use Rattle.std.specs.Ordering.{eq_by_cmp};
    ghost use Rattle.names.specs.Key.{key_cmp};
    ghost use Rattle.names.specs.KeyLaws.{key_cmp_total};

    ghost eq = { eq_by_cmp key_cmp };

    ghost laws = { partial_equiv_from_equiv (eq_by_cmp_equiv key_cmp_total) };

    fn eq(&self, other: &Key) -> bool {
        self.cmp(other).is_eq()
    }
}

impl Eq for Key {
    ghost use Rattle.std.specs.Cmp.{eq_by_cmp_equiv};
    ghost use Rattle.names.specs.KeyLaws.{key_cmp_total};

    ghost laws = { eq_by_cmp_equiv key_cmp_total };
}
