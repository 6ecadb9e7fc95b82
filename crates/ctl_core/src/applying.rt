//! The changes of a line are made in their order.
ghost use Rattle.std.specs.Prelude.{◌≡◌, IfOk, OnOk, true};
ghost use Rattle.cluster_objects.specs.Changes.{after, is_node};
ghost use Rattle.cluster_types.specs.Cluster.{ClusterData};
ghost use Rattle.ctl_core.specs.Line.{ComesTo, LeavesNodes, UnlessMade, came, is_under_way, other_differs};
ghost use Rattle.ctl_core.specs.Touched.{AreTouched, TouchesOn};
ghost use Rattle.ctl_core.specs.Trying.{Leads};
ghost use Rattle.ctl_core.specs.Uses.{IsCounted, IsSameSide};
ghost use Rattle.touched_names.specs.Elsewhere.{SameElsewhere};

use crate::side::Side;
use crate::trying::foretold;
use cl_types::NoMemory;
use cluster_objects::{Applied, Change, ClusterRefusal, Object, ObjectKey};
use std::alloc::Global;
use stream_messages::{TitledName, names_by_text};
use touched_names::are_names;
use watch_streams::StreamName;

fn is_node(change: &Change) -> bool
    ensures { result ≡ is_node change.now }
{
    matches!(
        change,
        Change::Put(Object::Node(_)) | Change::Remove(ObjectKey::Node(_))
    )
}

/// Whether a change of something other than a Node made a difference.
pub(crate) fn other_differs(change: &Change, applied: Applied) -> bool
    ensures { result ≡ other_differs change.now applied }
{
    !is_node(change) && matches!(applied, Applied::Changed)
}

/// Makes changes in their order of which none is refused, and appends the names that they touch. So nothing but want of
/// memory stops them, and the side is then of no more use.
pub(crate) fn apply_all(
    alloc: Global,
    side: &mut Side,
    changes: &[Change],
    touched: &mut Vec<StreamName>,
) -> Result<(), NoMemory>
    requires fixed { side.old.cluster.cluster.fixed ≡ true }
    requires counted { IsCounted side.old.cluster.cluster side.old.groups }
    ensures leads { OnOk result (Leads changes.now side.old.cluster.cluster side.new.cluster.cluster) }
    ensures nodes { LeavesNodes side.old.cluster.cluster side.new.cluster.cluster }
    ensures counted { OnOk result (IsCounted side.new.cluster.cluster side.new.groups) }
    ensures touched { OnOk result (TouchesOn touched.old.items touched.new.items side.old.cluster.cluster side.new.cluster.cluster) }
{
    for change in changes {
        let Ok(_) = side.apply(alloc, change, touched) else {
            return Err(NoMemory);
        };
    }
    Ok(())
}

// Makes changes in their order, once all of them were tried and taken back.
fn make_all(
    alloc: Global,
    side: &mut Side,
    changes: &[Change],
    touched: &mut Vec<StreamName>,
) -> Result<bool, ClusterRefusal>
    requires fixed { side.old.cluster.cluster.fixed ≡ true }
    requires counted { IsCounted side.old.cluster.cluster side.old.groups }
    ensures made { ComesTo (came (after side.old.cluster.cluster changes.now)) result side.new.cluster.cluster }
    ensures same { UnlessMade result (IsSameSide side.old.cluster.cluster side.old.groups side.new.cluster.cluster side.new.groups) }
    ensures counted { OnOk result (IsCounted side.new.cluster.cluster side.new.groups) }
    ensures touched { OnOk result (TouchesOn touched.old.items touched.new.items side.old.cluster.cluster side.new.cluster.cluster) }
{
    if !foretold(alloc, &mut side.cluster, changes)? {
        return Ok(false);
    }
    apply_all(alloc, side, changes, touched)?;
    Ok(true)
}

/// Makes the changes of a line in their order, appends the names that they touch, and tells whether one of something other
/// than a Node made a difference. Where one is refused, or none makes a difference, the side is as it was. A change that is
/// alone needn't be tried before. Where memory is wanting, the side is of no more use.
pub(crate) fn make_line(
    alloc: Global,
    side: &mut Side,
    changes: &[Change],
    touched: &mut Vec<StreamName>,
) -> Result<bool, ClusterRefusal>
    requires fixed { side.old.cluster.cluster.fixed ≡ true }
    requires counted { IsCounted side.old.cluster.cluster side.old.groups }
    ensures made { ComesTo (came (after side.old.cluster.cluster changes.now)) result side.new.cluster.cluster }
    ensures same { UnlessMade result (IsSameSide side.old.cluster.cluster side.old.groups side.new.cluster.cluster side.new.groups) }
    ensures counted { OnOk result (IsCounted side.new.cluster.cluster side.new.groups) }
    ensures touched { OnOk result (TouchesOn touched.old.items touched.new.items side.old.cluster.cluster side.new.cluster.cluster) }
{
    if changes.len() == 1 {
        side.apply(alloc, &changes[0], touched)
    } else {
        make_all(alloc, side, changes, touched)
    }
}

/// The names by their texts. They tell all that differs between clusters of which the names do so.
pub(crate) fn by_text(alloc: Global, touched: Vec<StreamName>) -> Result<Vec<TitledName>, NoMemory>
    ensures { (c d : ClusterData) → SameElsewhere touched.items c d → IfOk result (λ names. AreTouched names.items c d) }
{
    are_names(touched.as_slice());
    Ok(names_by_text(alloc, touched)?)
}

/// Whether the changes made a difference, or memory ran out, maybe in the middle of them.
pub(crate) fn is_under_way(made: &Result<bool, ClusterRefusal>) -> bool
    ensures { result ≡ is_under_way made.now }
{
    match made {
        Ok(differs) => *differs,
        Err(ClusterRefusal::NoMemory) => true,
        Err(_) => false,
    }
}
