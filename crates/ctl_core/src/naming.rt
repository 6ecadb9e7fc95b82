//! The groups that an object names.
ghost use Rattle.std.specs.Prelude.{◌≡◌, ◌++◌, ◌∷◌, [], cond, IfOk, OnOk, option_copied};
ghost use Rattle.cluster_types.specs.Choice.{egress_counts};
ghost use Rattle.touched_names.specs.Touching.{counting_group, groups_named};
ghost use Rattle.ctl_core.specs.Uses.{named_if_any, new_object};

use cl_types::{Copies, NoMemory};
use cluster_objects::{Change, Cluster, Object};
use cluster_types::{EgressObj, Policy};
use label_select::GroupKey;
use node_objects::egress_counts;
use std::alloc::Global;
use stream_messages::{copy_groups, policy_groups};

fn policy_named(alloc: Global, policy: &Policy) -> Result<Vec<GroupKey>, NoMemory>
    ensures { IfOk result (λ named. named.items ≡ groups_named policy.now) }
{
    let mut named = Vec::new(alloc);
    let mut peers = policy_groups(alloc, policy.rules.as_slice())?;
    copy_groups(&mut named, policy.applied.as_slice())?;
    named.append(&mut peers)?;
    Ok(named)
}

fn egress_named(alloc: Global, c: &Cluster, egress: &EgressObj) -> Result<Vec<GroupKey>, NoMemory>
    ensures { IfOk result (λ named. named.items ≡ counting_group c.now.cluster egress.now) }
{
    let mut named = Vec::new(alloc);
    if egress_counts(c, egress) {
        named.push(egress.applied.copy()?)?;
    }
    Ok(named)
}

/// The groups that the object names, where there is one.
pub(crate) fn named_by(
    alloc: Global,
    c: &Cluster,
    object: Option<&Object>,
) -> Result<Vec<GroupKey>, NoMemory>
    ensures { IfOk result (λ named. named.items ≡ named_if_any c.now.cluster (option_copied object.entry)) }
{
    match object {
        Some(Object::Policy(policy)) => policy_named(alloc, policy),
        Some(Object::Egress(egress)) => egress_named(alloc, c, egress),
        _ => Ok(Vec::new(alloc)),
    }
}

/// The object that stands at the change's key once it is made.
pub(crate) fn new_object(change: &Change) -> Option<&Object>
    ensures { option_copied result ≡ new_object change.now }
{
    match change {
        Change::Put(object) => Some(object),
        Change::Remove(_) => None,
    }
}
