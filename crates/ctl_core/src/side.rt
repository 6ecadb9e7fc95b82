//! A change is made in a cluster and in the index of its groups.
ghost use Rattle.std.specs.Prelude.{◌≡◌, ◌++◌, IfOk, OnErr, OnOk, option_copied, true};
ghost use Rattle.cluster_objects.specs.Changes.{apply};
ghost use Rattle.ctl_core.specs.Following.{StandsBefore};
ghost use Rattle.ctl_core.specs.Line.{ComesTo, LeavesNodes, UnlessMade, one_came};
ghost use Rattle.ctl_core.specs.Naming.{AreGroups};
ghost use Rattle.node_objects.specs.Sides.{IsSide};
ghost use Rattle.ctl_core.specs.Touched.{TouchesOn, touched_by};
ghost use Rattle.ctl_core.specs.Uses.{CountsBefore, IsCounted, IsSameSide, new_object};

use crate::applying::other_differs;
use crate::following::{drop_all, move_members, put_all};
use crate::naming::{named_by, new_object};
use crate::touched::changes_touch;
use cl_types::{Copies, NoMemory};
use cluster_objects::{Change, Cluster, ClusterRefusal, Kept, Object, changes_leave_the_rest};
use group_index::{GroupIndex, index_stands_before};
use label_select::group_texts_differ;
use std::alloc::Global;
use touched_names::touched_names_join;
use watch_streams::StreamName;

/// A cluster with the groups that its policies and Egresses name.
#[derive(Drop)]
pub(crate) struct Side {
    pub(crate) cluster: Cluster,
    pub(crate) groups: GroupIndex,
}

impl Side {
    /// All groups are in use that are named, where the uses are counted. It does nothing else.
    pub(crate) fn has_all_in_use(&self)
        requires { IsCounted self.now.cluster.cluster self.now.groups }
        ensures { IsSide self.now.cluster.cluster self.now.groups }
    {
        group_texts_differ();
        self.cluster.keeps_its_form();
    }

    /// Makes a change, appends the names that it touches, and tells whether one of something other than a Node made a
    /// difference. Where it is refused or made none, the side is as it was. Where memory is wanting, the index may have
    /// followed in part, and the side is of no more use.
    pub(crate) fn apply(
        &mut self,
        alloc: Global,
        change: &Change,
        touched: &mut Vec<StreamName>,
    ) -> Result<bool, ClusterRefusal>
        requires fixed { self.old.cluster.cluster.fixed ≡ true }
        requires counted { IsCounted self.old.cluster.cluster self.old.groups }
        ensures made { ComesTo (one_came change.now (apply self.old.cluster.cluster change.now)) result self.new.cluster.cluster }
        ensures same { UnlessMade result (IsSameSide self.old.cluster.cluster self.old.groups self.new.cluster.cluster self.new.groups) }
        ensures nodes { LeavesNodes self.old.cluster.cluster self.new.cluster.cluster }
        ensures counted { OnOk result (IsCounted self.new.cluster.cluster self.new.groups) }
        ensures touched { OnOk result (TouchesOn touched.old.items touched.new.items self.old.cluster.cluster self.new.cluster.cluster) }
    {
        changes_leave_the_rest();
        index_stands_before();
        group_texts_differ();
        touched_names_join();
        changes_touch();
        self.cluster.keeps_its_form();
        let Kept { applied, undo } = self.cluster.apply_kept(change.copy()?)?;
        self.cluster.keeps_its_form();
        if !other_differs(change, applied) {
            return Ok(false);
        }
        self.follow(alloc, change, undo.old.as_ref(), touched)?;
        Ok(true)
    }

    // The index follows a change that was made, at whose key this stood before.
    fn follow(
        &mut self,
        alloc: Global,
        change: &Change,
        old: Option<&Object>,
        touched: &mut Vec<StreamName>,
    ) -> Result<(), NoMemory>
        requires stands { StandsBefore change.now (option_copied old) self.old.groups self.old.cluster.cluster }
        requires groups { AreGroups self.old.groups }
        requires counts { CountsBefore self.old.cluster.cluster (option_copied old) (new_object change.now) self.old.groups }
        ensures cluster { self.new.cluster ≡ self.old.cluster }
        ensures counted { OnOk result (IsCounted self.new.cluster.cluster self.new.groups) }
        ensures touched { OnOk result (touched.new.items ≡ touched.old.items ++ touched_by change.now (option_copied old.entry) self.old.groups self.old.cluster.cluster) }
    {
        let named = named_by(alloc, &self.cluster, new_object(change))?;
        let dropped = named_by(alloc, &self.cluster, old)?;
        move_members(&mut self.groups, &self.cluster, change, old, touched)?;
        put_all(&mut self.groups, &self.cluster, named.as_slice())?;
        drop_all(&mut self.groups, dropped.as_slice());
        Ok(())
    }
}
