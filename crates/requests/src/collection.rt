ghost use Rattle.std.specs.Prelude.{◌≡◌, option_map};
ghost use Rattle.requests.specs.Collection.{has_key, collection_of};

use names::{Key, Resource};

/// The objects of a resource, in one namespace or, without one, in all; of a cluster-scoped resource all of them.
#[derive(Drop)]
pub struct Collection {
    pub resource: Resource,
    pub namespace: Option<String>,
}

impl Collection {
    /// The namespace, `None` where the collection is in all.
    pub fn namespace(&self) -> Option<&str>
        ensures { option_map (λ text. text.now) result ≡ (collection_of self.now).namespace }
    {
        match &self.namespace {
            Some(namespace) => Some(namespace.as_str()),
            None => None,
        }
    }

    /// Whether the key is that of an object of the collection.
    pub fn has_key(&self, key: &Key) -> bool
        ensures { result ≡ has_key (collection_of self.now) key.now }
    {
        let is_of_resource = key.resource().number() == self.resource.number();
        match &self.namespace {
            None => is_of_resource,
            Some(namespace) => is_of_resource && key.namespace() == namespace.as_str(),
        }
    }
}
