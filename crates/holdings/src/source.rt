//! The trait of the objects that lie below memory.

ghost use Rattle.std.specs.Prelude.{◌≡◌, ◌≤◌, ℕ, List, option_map, IfOk, OnOk, IsErrOf};
ghost use Rattle.std.specs.List.{filter, list_any};
ghost use Rattle.names.specs.Key.{Key as KeyData};
ghost use Rattle.objects.specs.Objects.{value_at, is_of};
ghost use Rattle.histories.specs.declared.stored.Stored.{Stored as StoredData};
ghost use Rattle.objects.specs.Failing.{HasGrown};
ghost use Rattle.holdings.specs.Sources.{found_in, is_unchanged};
ghost use Rattle.objects.specs.declared.fault.Part.{Part};
ghost use Rattle.objects.specs.declared.fault.LookupFault.TheVariants as LookupFault;

use documents::Document;
use histories::Stored;
use names::{Key, Resource};
use objects::{Changes, LookupFault};
use std::alloc::Global;

/// An object that was found: what is stored of it, and the revision of its last write.
#[derive(Drop)]
pub struct FoundDocument {
    pub document: Document,
    pub revision: u64,
}

/// Objects that lie below, as they were when a store was last compacted. A look may read a device, and change what the source is made of; what it holds stays.
pub trait Source<P> {
    /// It holds these objects, ascending by key.
    ghost holds: { Self → List (KeyData × StoredData P) → Type 0 };

    /// How often the device below has failed.
    ghost failures: { Self → ℕ };

    /// What lies below was found to be damaged.
    ghost is_damaged: { Self → Type 0 };

    /// What looks may make of it.
    ghost goes_to: { Self → Self → Type 0 };

    /// What looks leave of it of which none was told that the device failed.
    ghost unfailed: { Self → Self → Type 0 };

    /// The object under a key.
    ///
    /// # Errors
    ///
    /// `Device` where the device failed, `Damaged` where what lies below is damaged, so that it holds no objects, `Memory` where there was none.
    /// A device that failed is told as `Device`, and never as `Memory`.
    fn find(&mut self, alloc: Global, key: &Key) -> Result<Option<FoundDocument>, LookupFault>
        ensures found { (objects : List (KeyData × StoredData P)) → holds self.old objects → IfOk result (λ o. o ≡ option_map found_in (value_at key.now objects)) }
        ensures kept { (objects : List (KeyData × StoredData P)) → holds self.old objects → holds self.new objects }
        ensures goes { goes_to self.old self.new }
        ensures counts { failures self.old ≤ failures self.new }
        ensures steady { OnOk result (unfailed self.old self.new) }
        ensures device { IsErrOf result LookupFault.Device → HasGrown (failures self.old) (failures self.new) }
        ensures memory { IsErrOf result LookupFault.Memory → unfailed self.old self.new }
        ensures damaged { (part : Part) → IsErrOf result (LookupFault.Damaged part) → is_damaged self.new };

    /// The objects of a resource, in one namespace or in all, in key order.
    ///
    /// # Errors
    ///
    /// As those of `find`.
    fn list(
        &mut self,
        alloc: Global,
        resource: Resource,
        namespace: Option<&str>,
    ) -> Result<Vec<(Key, Stored<P>)>, LookupFault>
        ensures listed { let text = option_map (λ text. text.now) namespace.entry in (objects : List (KeyData × StoredData P)) → holds self.old objects
            → IfOk result (λ listed. listed.items ≡ filter (λ o. is_of resource text o.0) objects) }
        ensures kept { (objects : List (KeyData × StoredData P)) → holds self.old objects → holds self.new objects }
        ensures goes { goes_to self.old self.new }
        ensures counts { failures self.old ≤ failures self.new }
        ensures steady { OnOk result (unfailed self.old self.new) }
        ensures device { IsErrOf result LookupFault.Device → HasGrown (failures self.old) (failures self.new) }
        ensures memory { IsErrOf result LookupFault.Memory → unfailed self.old self.new }
        ensures damaged { (part : Part) → IsErrOf result (LookupFault.Damaged part) → is_damaged self.new };

    /// Whether an object of a resource in a namespace lies below whose key has none of these changes. It may stop at the first. No object is copied.
    ///
    /// # Errors
    ///
    /// As those of `find`.
    fn has_unchanged(
        &mut self,
        alloc: Global,
        resource: Resource,
        namespace: &str,
        changes: &Changes<Stored<P>>,
    ) -> Result<bool, LookupFault>
        ensures unchanged { (objects : List (KeyData × StoredData P)) → holds self.old objects
            → IfOk result (λ b. b ≡ list_any (λ o. is_unchanged resource namespace.now changes.now.made o.0) objects) }
        ensures kept { (objects : List (KeyData × StoredData P)) → holds self.old objects → holds self.new objects }
        ensures goes { goes_to self.old self.new }
        ensures counts { failures self.old ≤ failures self.new }
        ensures steady { OnOk result (unfailed self.old self.new) }
        ensures device { IsErrOf result LookupFault.Device → HasGrown (failures self.old) (failures self.new) }
        ensures memory { IsErrOf result LookupFault.Memory → unfailed self.old self.new }
        ensures damaged { (part : Part) → IsErrOf result (LookupFault.Damaged part) → is_damaged self.new };

    /// What is damaged holds nothing.
    ghost holds_nothing: { (source : Self) (objects : List (KeyData × StoredData P)) → holds source objects → is_damaged source → ⊥ };

    /// No look may leave it as it is.
    ghost stays: { (source : Self) → goes_to source source };

    /// Looks may come one after another.
    ghost goes_on: { (before between after : Self) → goes_to before between → goes_to between after → goes_to before after };

    /// Without a look the device did not fail.
    ghost unfailed_itself: { (source : Self) → unfailed source source };

    /// Nor did it where looks came one after another, and it failed in none.
    ghost unfailed_on: { (before between after : Self) → unfailed before between → unfailed between after → unfailed before after };
}
