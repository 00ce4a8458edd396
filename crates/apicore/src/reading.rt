//! The steps of requests that write nothing.

ghost use Rattle.std.specs.Prelude.{◌≡◌, List, [], None, IfOk, OnErr, IsErrOf};
ghost use Rattle.std.specs.Option.{option_map_or};
ghost use Rattle.names.specs.Key.{Key as KeyData};
ghost use Rattle.objects.specs.declared.fault.LookupFault.TheVariants as LookupFault;
ghost use Rattle.requests.specs.Collection.{collection_of};
ghost use Rattle.requests.specs.declared.refusal.Refusal.TheVariants.{NotFound};
ghost use Rattle.requests.specs.Refusal.{first_of};
ghost use Rattle.requests.specs.Request.{get, list};
ghost use Rattle.requests.specs.Selector.{selector_seen};
ghost use Rattle.histories.specs.declared.stored.Stored.{Stored as StoredData};
ghost use Rattle.requests.specs.Listing.{listing, watch_conditions, watching};
ghost use Rattle.requests.specs.Reply.{showing, status};
ghost use Rattle.histories.specs.View.{View as Held, stored_at};
ghost use Rattle.holdings.specs.Holdings.{Shows};
ghost use Rattle.decoded.specs.Decoded.{Decoded as DecodedData};
ghost use Rattle.decoded.specs.Shown.{IsOver};
ghost use Rattle.decoded.specs.Standing.{View};
ghost use Rattle.apicore.specs.Looked.{HasLooked};
ghost use Rattle.apicore.specs.Prepared.{IsPrepared};

use crate::prepared::Prepared;
use decoded::{Core, Decoded};
use holdings::{FoundDocument, Source};
use names::Key;
use objects::LookupFault;
use requests::{Collection, Refusal, Reply, Selector};
use std::alloc::{AllocError, Global};

// The reply that shows what was found, if anything was.
fn reply_of(alloc: Global, found: Option<FoundDocument>) -> Result<Reply, AllocError>
    ensures { IfOk result (λ r. r ≡ option_map_or (λ f. showing 200 [] f.document f.revision) found (status NotFound)) }
{
    match found {
        Some(FoundDocument { document, revision }) => Reply::showing_found(
            alloc, document, revision,
        ),
        None => Reply::status(alloc, Refusal::NotFound),
    }
}

// The reply to a GET.
fn shown<S: Source<Decoded>>(
    core: &Core,
    alloc: Global,
    source: &mut S,
    key: &Key,
) -> Result<Reply, LookupFault>
    ensures reply { (held : Held DecodedData) (v : View) → IsOver (S.holds source.old) core.now held v → IfOk result
        (λ r. r ≡ option_map_or (λ s. showing 200 [] s.document s.revision) (stored_at held key.now) (status NotFound)) }
    ensures looked { HasLooked S.holds S.goes_to S.failures S.unfailed core.now source.old source.new result }
{
    let found = core.find(alloc, source, key)?;
    Ok(reply_of(alloc, found)?)
}

/// The step of a GET.
pub(crate) fn get<S: Source<Decoded>>(
    core: &Core,
    alloc: Global,
    source: &mut S,
    key: &Key,
) -> Result<Prepared, LookupFault>
    ensures step { IfOk result (IsPrepared (S.holds source.old) core.now (get key.now)) }
    ensures ready { IfOk result (λ p. p.write ≡ None) }
    ensures looked { HasLooked S.holds S.goes_to S.failures S.unfailed core.now source.old source.new result }
{
    Ok(Prepared::replying(shown(core, alloc, source, key)?))
}

// The reply to a list.
fn listed<S: Source<Decoded>>(
    core: &Core,
    alloc: Global,
    source: &mut S,
    collection: &Collection,
    selector: &Selector,
) -> Result<Reply, LookupFault>
    ensures reply { (held : Held DecodedData) (v : View) → IsOver (S.holds source.old) core.now held v
        → IfOk result (λ r. r ≡ listing held (collection_of collection.now) (selector_seen selector.now)) }
    ensures looked { HasLooked S.holds S.goes_to S.failures S.unfailed core.now source.old source.new result }
{
    let below = source.list(alloc, collection.resource, collection.namespace())?;
    Ok(core.listed(alloc, collection, selector, &below)?)
}

/// The step of a list.
pub(crate) fn list<S: Source<Decoded>>(
    core: &Core,
    alloc: Global,
    source: &mut S,
    collection: &Collection,
    selector: &Selector,
) -> Result<Prepared, LookupFault>
    ensures step { IfOk result (IsPrepared (S.holds source.old) core.now (list (collection_of collection.now) (selector_seen selector.now))) }
    ensures ready { IfOk result (λ p. p.write ≡ None) }
    ensures looked { HasLooked S.holds S.goes_to S.failures S.unfailed core.now source.old source.new result }
{
    let reply = listed(core, alloc, source, collection, selector)?;
    Ok(Prepared::replying(reply))
}

/// The step of a watch, which asks no source.
pub(crate) fn watch(
    core: &Core,
    alloc: Global,
    collection: &Collection,
    revision: u64,
) -> Result<Prepared, LookupFault>
    ensures reply { (base : List (KeyData × StoredData DecodedData)) (held : Held DecodedData) → Shows core.now base held
        → IfOk result (λ p. p.reply ≡ option_map_or status (first_of (watch_conditions core.now.rules held revision)) (watching held (collection_of collection.now) revision)) }
    ensures ready { IfOk result (λ p. p.write ≡ None) }
    ensures memory { OnErr result (IsErrOf result LookupFault.Memory) }
{
    Ok(Prepared::replying(core.told(alloc, collection, revision)?))
}
