//! The step of a request, over the objects in pages.

ghost use Rattle.std.specs.Prelude.{◌≡◌, ◌≤◌, ◌*◌, ◌⊎◌, List, length, IfOk, OnOk, IsErrOf};
ghost use Rattle.device.specs.Disk.{HasFailed};
ghost use Rattle.device.specs.Step.{Same};
ghost use Rattle.device.specs.Run.{Ran};
ghost use Rattle.celtree.specs.Tree.{Expr};
ghost use Rattle.names.specs.Key.{Key as KeyData};
ghost use Rattle.objects.specs.declared.fault.Part.{Part};
ghost use Rattle.objects.specs.declared.fault.LookupFault.TheVariants as LookupFault;
ghost use Rattle.requests.specs.Request.{RequestHasForm};
ghost use Rattle.requests.specs.RequestOf.{request_of};
ghost use Rattle.histories.specs.declared.stored.Stored.{Stored as StoredData};
ghost use Rattle.histories.specs.View as seen;
ghost use Rattle.histories.specs.View.{after_all};
ghost use Rattle.holdings.specs.Holdings.{Shows, ShowsSame};
ghost use Rattle.holdings.specs.Prepared.{AreNext, HasRoomFor, writes_of};
ghost use Rattle.roots.specs.Root.{log_sector};
ghost use Rattle.expressions.specs.Specification.{Specification};
ghost use Rattle.decoded.specs.Decoded.{Decoded as DecodedData};
ghost use Rattle.apicore.specs.Prepared.{IsPrepared, IsReadOf};
ghost use Rattle.decoded.specs.Standing.{View, IsView};
ghost use Rattle.paged.specs.Paged.{Below, IsShown, root_of};

use crate::state::Paged;
use crate::without_plans::WithoutPlans;
use apicore::{Prepared, prepare};
use decoded::Decoded;
use device::Device;
use holdings::PreparedWrite;
use objects::LookupFault;
use requests::Request;
use snapshots::Base;
use std::alloc::Global;

impl Paged {
    /// Prepares the step of a request: takes all its memory, and leaves what is seen as it was, also where there is none. Of the pages it reads the one
    /// that may have the request's key, those of what is listed, and those of the parameters that a verdict asks for.
    ///
    /// # Errors
    ///
    /// `Device` only where the device failed in this call; `Damaged` only where no view is shown: no objects lie in the pages, or the plans of a policy that is
    /// asked are spoiled; `Memory`.
    pub fn prepare<D: Device>(
        &mut self,
        alloc: Global,
        device: &mut D,
        request: &Request,
    ) -> Result<Prepared, LookupFault>
        requires inside { D.disk.keeps device.old → 512 * log_sector (root_of self.old) ≤ length (D.disk.content device.old) }
        ensures rules { self.new.core.rules ≡ self.old.core.rules }
        ensures revision { self.new.core.revision ≡ self.old.core.revision }
        ensures root { root_of self.new ≡ root_of self.old }
        ensures shows { ShowsSame self.old.core self.new.core }
        ensures below { (base : List (KeyData × StoredData DecodedData)) → Below D.disk device.old self.old base → Below D.disk device.new self.new base }
        ensures step { IfOk result (IsPrepared (Below D.disk device.old self.old) self.old.core (request_of request.now)) }
        ensures ready { IfOk result (λ p. HasRoomFor self.new.core p.write) }
        ensures form { RequestHasForm (request_of request.now) }
        ensures ran { Ran D.disk device.old device.new Same }
        ensures steady { OnOk result (D.disk.failures device.new ≡ D.disk.failures device.old) }
        ensures device { IsErrOf result LookupFault.Device → HasFailed D.disk device.old device.new }
        ensures memory { IsErrOf result LookupFault.Memory → D.disk.failures device.new ≡ D.disk.failures device.old }
        ensures read { IsErrOf result LookupFault.Device ⊎ ((part : Part) × IsErrOf result (LookupFault.Damaged part)) → (s : Specification Expr) × IsReadOf self.old.core.rules.format (request_of request.now) s }
        ensures damaged { (part : Part) → IsErrOf result (LookupFault.Damaged part) → (v : View) → IsShown D.disk device.old self.old v → IsView self.old.core.rules.format v → ⊥ }
    {
        let mut base = Base::new(device, &mut self.cache, WithoutPlans);
        prepare(&mut self.core, alloc, &mut base, request)
    }

    /// Takes a prepared write, if there is one. This takes no memory, and looks nothing up.
    pub fn take(&mut self, write: Option<PreparedWrite<Decoded>>)
        requires { HasRoomFor self.old.core write }
        ensures rules { self.new.core.rules ≡ self.old.core.rules }
        ensures cache { self.new.cache ≡ self.old.cache }
        ensures shows { (base : List (KeyData × StoredData DecodedData)) (v : seen.View DecodedData) → Shows self.old.core base v → AreNext v write
            → Shows self.new.core base (after_all self.old.core.rules v (writes_of write)) }
    {
        self.core.take(write);
    }
}
