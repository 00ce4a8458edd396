//! Laws of changes over entries.

ghost use Rattle.objects.specs.Laws.{FoundOver, ChangeIsOneMore, ListedOver, SameIsNothing, ChangeCounts, FoundWhereCovered, ListedWhereCovered};

/// A law: a key has what was put or removed, and else what it had.
pub fn found_over()
    ensures { FoundOver }
{}

/// A law: one more change changes what the others leave.
pub fn change_is_one_more()
    ensures { ChangeIsOneMore }
{}

/// A law: what changes leave of a resource's entries is left by the changes of that resource.
pub fn listed_over()
    ensures { ListedOver }
{}

/// A law: a change that says what is there already changes nothing.
pub fn same_is_nothing()
    ensures { SameIsNothing }
{}

/// A law: a change makes the entries as many more as what it puts, and as many fewer as what was there.
pub fn change_counts()
    ensures { ChangeCounts }
{}

/// A law: where each entry of a resource has a change, the changes alone say what is found of it.
pub fn found_where_covered()
    ensures { FoundWhereCovered }
{}

/// A law: where each entry of a resource has a change, the changes alone say what is listed of it.
pub fn listed_where_covered()
    ensures { ListedWhereCovered }
{}
