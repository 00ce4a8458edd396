//! Laws of entries.

ghost use Rattle.records.specs.EntryLaws.{AtMostOneObject, AtMostOneEvent, AtMostOneView, EntriesAscend, EntriesFitPages, HistoriesAreHoldable};

/// A law: at most one object has an entry.
pub fn entry_has_one_object()
    ensures { AtMostOneObject }
{}

/// A law: at most one event has an entry.
pub fn entry_has_one_event()
    ensures { AtMostOneEvent }
{}

/// A law: at most one view has these entries and a revision.
pub fn entries_have_one_view()
    ensures { AtMostOneView }
{}

/// A law: the entries of a view ascend.
pub fn entries_ascend()
    ensures { EntriesAscend }
{}

/// A law: what a history shows can be held, if the plans of its objects can.
pub fn histories_are_holdable()
    ensures { HistoriesAreHoldable }
{}

/// A law: each entry of a view fits a page, where texts may have at most 16384 bytes.
pub fn entries_fit_pages()
    ensures { EntriesFitPages }
{}
