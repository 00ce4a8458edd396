//! Laws of objects in pages.

ghost use Rattle.snapshots.specs.ObjectCacheLaws.{ViewsHoldObjects, KeptAreOfAView};

/// A law: the entries of a view hold its objects.
pub fn views_hold_objects()
    ensures { ViewsHoldObjects }
{}

/// A law: what is kept of a view's entries are the entries of what is chosen of it, and all its objects are counted.
pub fn kept_are_of_a_view()
    ensures { KeptAreOfAView }
{}
