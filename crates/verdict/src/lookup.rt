//! The lookup of objects before a write.

ghost use Rattle.std.specs.Prelude.{◌≡◌, ◌≤◌, ℕ, List, map, option_map, Some, None, IfOk, OnOk, IsErrOf, IsTrue};
ghost use Rattle.std.specs.FinMap.{is_sorted};
ghost use Rattle.names.specs.Key.{Key as KeyData, key_cmp};
ghost use Rattle.names.specs.declared.resource.Resource.TheVariants.{ValidatingAdmissionPolicy, ValidatingAdmissionPolicyBinding};
ghost use Rattle.objects.specs.Objects.{value_at};
ghost use Rattle.policy.specs.Spec.{wanted_seen};
ghost use Rattle.objects.specs.Failing.{HasGrown};
ghost use Rattle.verdict.specs.Objects.{Held, Objects, all_held, shown_objects};
ghost use Rattle.verdict.specs.Listed.{listed, wanted_of};
ghost use Rattle.verdict.specs.LookupSeen.{held_by, listed_seen};
ghost use Rattle.objects.specs.declared.fault.Part.{Part};
ghost use Rattle.objects.specs.declared.fault.LookupFault.TheVariants as LookupFault;

use documents::Document;
use expressions::{Bound, StoredPlans};
use jsondoc::Doc;
use names::{Key, Resource};
use objects::LookupFault;
use policy::{Policy, Wanted};
use std::alloc::Global;

/// An object that a lookup finds, lent.
#[derive(Clone, Copy)]
pub struct FoundObject<'a> {
    /// What is stored.
    pub document: &'a Document,
    /// The policy that it spells, if it has the form of one.
    pub policy: Option<&'a Policy>,
    /// If it is a policy, the plans of its expressions.
    pub plans: &'a StoredPlans,
    /// The binding that it spells, if it has the form of one.
    pub bound: Option<&'a Bound>,
    /// The revision of its last write.
    pub revision: u64,
}

/// An object among those that a lookup lists, lent.
#[derive(Clone, Copy)]
pub struct ListedObject<'a> {
    /// What it stands under.
    pub key: &'a Key,
    /// What stands there.
    pub found: FoundObject<'a>,
}

/// Where objects are looked up, before a write.
///
/// Policies and bindings are lent from memory, for `'a`, and parameters are made, as they are shown. A lookup may read a device and change
/// its own state. What it shows and lends stays the same. `goes_to` says what is known of its state afterwards.
pub trait Lookup<'a> {
    /// It shows these objects. Nothing has to be known of their trees.
    ghost shows: { Self → Objects → Type 0 };

    /// It lends policies and bindings of these objects, whatever their plans are.
    ghost lends: { Self → List (KeyData × Held) → Type 0 };

    /// How often the device below has failed.
    ghost failures: { Self → ℕ };

    /// What lies below was found to be damaged.
    ghost is_damaged: { Self → Type 0 };

    /// What looks may make of it.
    ghost goes_to: { Self → Self → Type 0 };

    /// What looks leave of it of which none was told that the device failed.
    ghost unfailed: { Self → Self → Type 0 };

    /// The policy under a key. It lies in memory, so no fault is told.
    fn policy(&self, key: &Key) -> Option<FoundObject<'a>>
        requires { key.now.resource ≡ ValidatingAdmissionPolicy }
        ensures found { (objects : Objects) → shows self.now objects → option_map held_by result ≡ value_at key.now (all_held objects) }
        ensures lent { (all : List (KeyData × Held)) → lends self.now all → option_map held_by result ≡ value_at key.now all };

    /// All bindings, in key order.
    ///
    /// # Errors
    ///
    /// As those of `parameters`.
    fn bindings(&mut self, alloc: Global) -> Result<Vec<ListedObject<'a>>, LookupFault>
        ensures found { (objects : Objects) → shows self.old objects
            → IfOk result (λ v. map listed_seen v.items ≡ listed ValidatingAdmissionPolicyBinding None (all_held objects)) }
        ensures lent { (all : List (KeyData × Held)) → lends self.old all
            → IfOk result (λ v. map listed_seen v.items ≡ listed ValidatingAdmissionPolicyBinding None all) }
        ensures kept { (objects : Objects) → shows self.old objects → shows self.new objects }
        ensures goes { goes_to self.old self.new }
        ensures counts { failures self.old ≤ failures self.new }
        ensures steady { OnOk result (unfailed self.old self.new) }
        ensures device { IsErrOf result LookupFault.Device → HasGrown (failures self.old) (failures self.new) }
        ensures memory { IsErrOf result LookupFault.Memory → unfailed self.old self.new }
        ensures damaged { (part : Part) → IsErrOf result (LookupFault.Damaged part) → is_damaged self.new };

    /// The objects of a resource in a namespace that are wanted, in key order, as they are shown.
    ///
    /// # Errors
    ///
    /// `Memory` where out of memory, `Device` where the device failed, `Damaged` where what lies below is damaged, so that it shows nothing. A device
    /// that failed is told as `Device`, and never as `Memory`.
    fn parameters(
        &mut self,
        alloc: Global,
        resource: Resource,
        namespace: &str,
        wanted: &Wanted,
    ) -> Result<Vec<Doc>, LookupFault>
        ensures found { (objects : Objects) → shows self.old objects
            → IfOk result (λ v. v.items ≡ wanted_of (wanted_seen wanted.now) (listed resource (Some namespace.now) (shown_objects objects))) }
        ensures kept { (objects : Objects) → shows self.old objects → shows self.new objects }
        ensures goes { goes_to self.old self.new }
        ensures counts { failures self.old ≤ failures self.new }
        ensures steady { OnOk result (unfailed self.old self.new) }
        ensures device { IsErrOf result LookupFault.Device → HasGrown (failures self.old) (failures self.new) }
        ensures memory { IsErrOf result LookupFault.Memory → unfailed self.old self.new }
        ensures damaged { (part : Part) → IsErrOf result (LookupFault.Damaged part) → is_damaged self.new };

    /// The keys of what it shows ascend.
    ghost ascending: { (lookup : Self) (objects : Objects) → shows lookup objects → IsTrue (is_sorted key_cmp objects) };

    /// What it shows it lends.
    ghost lends_shown: { (lookup : Self) (objects : Objects) → shows lookup objects → lends lookup (all_held objects) };

    /// What is damaged shows nothing.
    ghost shows_nothing: { (lookup : Self) (objects : Objects) → shows lookup objects → is_damaged lookup → ⊥ };

    /// No look may leave it as it is.
    ghost stays: { (lookup : Self) → goes_to lookup lookup };

    /// Looks may come one after another.
    ghost goes_on: { (before between after : Self) → goes_to before between → goes_to between after → goes_to before after };

    /// Without a look the device did not fail.
    ghost unfailed_itself: { (lookup : Self) → unfailed lookup lookup };

    /// Nor did it where looks came one after another, and it failed in none.
    ghost unfailed_on: { (before between after : Self) → unfailed before between → unfailed between after → unfailed before after };

    /// What it lends stays.
    ghost lends_on: { (before after : Self) (all : List (KeyData × Held)) → goes_to before after → lends before all → lends after all };
}
