//! Changes are tried on a cluster, and taken back.
ghost use Rattle.std.specs.Prelude.{◌≡◌, ◌+◌, ◌++◌, ◌∷◌, ◌<◌, ◌≤◌, [], IfOk, OnOk, false, length, reverse, true, vec_capacity, vec_len};
ghost use Rattle.cluster_objects.specs.Changes.{after, apply};
ghost use Rattle.cluster_objects.specs.Laws.{all_taken_back};
ghost use Rattle.ctl_core.specs.Line.{ComesTo, LeavesNodes, came, one_came};
ghost use Rattle.ctl_core.specs.Trying.{CanTakeBack, Foretells};

use crate::applying::other_differs;
use cl_types::{Copies, NoMemory};
use cluster_objects::{
    Change, Cluster, ClusterRefusal, Kept, Undo, changes_leave_the_rest, undoes_take_back,
};
use std::alloc::Global;

// Room for what takes so many changes back.
fn room_for(alloc: Global, count: usize) -> Result<Vec<Undo>, NoMemory>
    ensures none { IfOk result (λ undoes. undoes.items ≡ []) }
    ensures room { IfOk result (λ undoes. count ≤ vec_capacity undoes) }
{
    Ok(Vec::with_capacity(alloc, count)?)
}

// Keeps what takes a change back. The room for it is there.
fn keep(undoes: &mut Vec<Undo>, undo: Undo)
    requires { vec_len undoes.old < vec_capacity undoes.old }
    ensures items { undoes.new.items ≡ undoes.old.items ++ undo ∷ [] }
    ensures len { vec_len undoes.new ≤ vec_len undoes.old + 1 }
    ensures capacity { vec_capacity undoes.old ≤ vec_capacity undoes.new }
{
    match undoes.push(undo) {
        Ok(()) => {}
        Err(_) => unreachable!(),
    }
}

// Makes a change, keeps what takes it back, and tells whether one of something other than a Node made a difference.
fn try_one(
    cluster: &mut Cluster,
    undoes: &mut Vec<Undo>,
    change: &Change,
) -> Result<bool, ClusterRefusal>
    requires fixed { cluster.old.cluster.fixed ≡ true }
    requires room { vec_len undoes.old < vec_capacity undoes.old }
    requires back { CanTakeBack (reverse undoes.old.items) cluster.old.cluster cluster.old.places }
    ensures made { ComesTo (one_came change.now (apply cluster.old.cluster change.now)) result cluster.new.cluster }
    ensures nodes { OnOk result (LeavesNodes cluster.old.cluster cluster.new.cluster) }
    ensures same { IfOk result (λ differs. differs ≡ false → cluster.new.cluster ≡ cluster.old.cluster) }
    ensures back { CanTakeBack (reverse undoes.new.items) cluster.new.cluster cluster.new.places }
    ensures leads { all_taken_back cluster.new.cluster (reverse undoes.new.items) ≡ all_taken_back cluster.old.cluster (reverse undoes.old.items) }
    ensures len { vec_len undoes.new ≤ vec_len undoes.old + 1 }
    ensures capacity { vec_capacity undoes.old ≤ vec_capacity undoes.new }
{
    changes_leave_the_rest();
    undoes_take_back();
    cluster.keeps_its_form();
    let Kept { applied, undo } = cluster.apply_kept(change.copy()?)?;
    keep(undoes, undo);
    Ok(other_differs(change, applied))
}

// Makes the changes in their order, up to the first one that is refused.
fn try_all(
    cluster: &mut Cluster,
    undoes: &mut Vec<Undo>,
    changes: &[Change],
) -> Result<bool, ClusterRefusal>
    requires fixed { cluster.old.cluster.fixed ≡ true }
    requires none { undoes.old.items ≡ [] }
    requires room { length changes.now ≤ vec_capacity undoes.old }
    ensures made { ComesTo (came (after cluster.old.cluster changes.now)) result cluster.new.cluster }
    ensures same { IfOk result (λ differs. differs ≡ false → cluster.new.cluster ≡ cluster.old.cluster) }
    ensures back { CanTakeBack (reverse undoes.new.items) cluster.new.cluster cluster.new.places }
    ensures leads { all_taken_back cluster.new.cluster (reverse undoes.new.items) ≡ cluster.old.cluster }
{
    let mut differs = false;
    for change in changes {
        let more = try_one(cluster, undoes, change)?;
        differs |= more;
    }
    Ok(differs)
}

// Takes changes back, the last one first. It needs no memory.
fn take_all_back(cluster: &mut Cluster, mut undoes: Vec<Undo>)
    requires { CanTakeBack (reverse undoes.items) cluster.old.cluster cluster.old.places }
    ensures { cluster.new.cluster ≡ all_taken_back cluster.old.cluster (reverse undoes.items) }
{
    while let Some(undo) = undoes.pop() {
        cluster.undo(undo);
    }
}

/// Tells whether the changes make a difference, or why the first one that is refused is refused. The cluster stays as it
/// is.
pub(crate) fn foretold(
    alloc: Global,
    cluster: &mut Cluster,
    changes: &[Change],
) -> Result<bool, ClusterRefusal>
    requires { cluster.old.cluster.fixed ≡ true }
    ensures foretold { Foretells changes.now cluster.old.cluster result }
    ensures same { cluster.new.cluster ≡ cluster.old.cluster }
{
    let mut undoes = room_for(alloc, changes.len())?;
    let answer = try_all(cluster, &mut undoes, changes);
    take_all_back(cluster, undoes);
    answer
}
