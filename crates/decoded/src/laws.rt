// The laws of the definitions, each the contract of a function.
ghost use Rattle.std.specs.Prelude.{List};
ghost use Rattle.celtree.specs.Tree.{Expr};
ghost use Rattle.histories.specs.Wider.{ViewsStay, ViewsStayAboveFloor};
ghost use Rattle.decoded.specs.Laws.{RevisionCounts, KeyHasLastWrite, EventsAreLast, ObjectsAscend, HistoriesShow, TreesStay, NoNamespaces, UpgradesFollow, UpgradesShow};

use expressions::specifications_stay;

/// The revision is one more than the number of writes.
pub fn revision_counts()
    ensures { RevisionCounts }
{}

/// A key has what the last write to it left.
pub fn key_has_last_write()
    ensures { KeyHasLastWrite }
{}

/// The events of a view are those of the last writes above the floor.
pub fn events_are_last()
    ensures { EventsAreLast }
{}

/// The keys of a view's objects ascend.
pub fn objects_ascend()
    ensures { ObjectsAscend }
{}

/// The view of a history has the trees of its documents, and its keys ascend.
pub fn histories_show()
    ensures { HistoriesShow }
{}

/// Under wider rules a history stays one, with its trees.
pub fn trees_stay()
    ensures { TreesStay }
{
    specifications_stay();
}

/// Where namespaces are no objects, none is stored.
pub fn no_namespaces()
    ensures { NoNamespaces }
{}

/// Under rules with the same window and the same floor a history is seen as it was.
pub fn views_stay()
    ensures { ViewsStay (List Expr) }
{}

/// So it is under rules with a wider window, whose floor is the revision up to which the old window has no event.
pub fn views_stay_above_floor()
    ensures { ViewsStayAboveFloor (List Expr) }
{}

/// Behind the writes of an upgrade for which there is room stands a history.
pub fn upgrades_follow()
    ensures { UpgradesFollow }
{
    trees_stay();
}

/// What is seen behind them is told by what was seen before.
pub fn upgrades_show()
    ensures { UpgradesShow }
{}
