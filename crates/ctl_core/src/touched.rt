//! The names that a change touches.
ghost use Rattle.std.specs.Prelude.{◌≡◌, ◌++◌, IfOk, OnOk, option_copied};
ghost use Rattle.ctl_core.specs.Touched.{ChangesTouch, changed_groups, names_if_any, names_of_moved};

use crate::spread::spread_groups;
use cl_types::{Copies, NoMemory};
use cluster_objects::{Cluster, Object};
use group_index::{GroupChange, GroupIndex};
use label_select::GroupKey;
use std::alloc::Global;
use touched_names::{
    changed_rules_touch, moved_groups_touch, push_egress_names, push_moved_names,
    push_policy_names, tiers_and_nodes_touch_nothing,
};
use watch_streams::StreamName;

/// What changes of each kind touch.
pub(crate) fn changes_touch()
    ensures { ChangesTouch }
{
    moved_groups_touch();
    changed_rules_touch();
    tiers_and_nodes_touch_nothing();
}

fn push_names(touched: &mut Vec<StreamName>, object: Option<&Object>) -> Result<(), NoMemory>
    ensures { OnOk result (touched.new.items ≡ touched.old.items ++ names_if_any (option_copied object.entry)) }
{
    match object {
        Some(Object::Policy(policy)) => push_policy_names(touched, policy),
        Some(Object::Egress(egress)) => push_egress_names(touched, egress),
        _ => Ok(()),
    }
}

/// Appends the names that an object brings and those of the one whose place it takes.
pub(crate) fn push_both(
    touched: &mut Vec<StreamName>,
    new: Option<&Object>,
    old: Option<&Object>,
) -> Result<(), NoMemory>
    ensures { OnOk result (touched.new.items ≡ touched.old.items ++ (names_if_any (option_copied new.entry) ++ names_if_any (option_copied old.entry))) }
{
    push_names(touched, new)?;
    push_names(touched, old)
}

fn changed_groups(alloc: Global, changes: &[GroupChange]) -> Result<Vec<GroupKey>, NoMemory>
    ensures { IfOk result (λ groups. groups.items ≡ changed_groups changes.now) }
{
    let mut groups = Vec::new(alloc);
    for change in changes {
        groups.push(change.group.copy()?)?;
    }
    Ok(groups)
}

/// Appends the names that groups touch by these changes to the members that the index has.
pub(crate) fn push_moved(
    touched: &mut Vec<StreamName>,
    index: &GroupIndex,
    c: &Cluster,
    changes: &[GroupChange],
) -> Result<(), NoMemory>
    ensures { OnOk result (touched.new.items ≡ touched.old.items ++ names_of_moved changes.now index.now c.now.cluster) }
{
    let alloc = *touched.allocator();
    let moved = changed_groups(alloc, changes)?;
    let spread = spread_groups(alloc, index, changes)?;
    push_moved_names(
        touched,
        moved.as_slice(),
        spread.as_slice(),
        c.policies(),
        c.egresses(),
    )
}
