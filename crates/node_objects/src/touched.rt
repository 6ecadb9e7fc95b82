//! What messages to all nodes have in common under a name that changes touch.
ghost use Rattle.std.specs.Prelude.{◌≡◌, ◌++◌, map, IfOk, OnOk};
ghost use Rattle.std.specs.List.{flat_map};
ghost use Rattle.node_objects.specs.Touched.{applied_along, applied_with_peer, members_changed, nobody, touched_group, touched_name, who_names, whole_group};

use crate::members::all_told;
use cl_types::{Copies, List, NoMemory};
use cluster_objects::Cluster;
use cluster_types::Policy;
use group_index::GroupIndex;
use label_select::GroupKey;
use std::alloc::Global;
use stream_messages::{TitledName, copy_groups, push_change};
use touched_names::{has_group, names_peer};
use watch_streams::{StreamChange, StreamName, StreamObject};

/// Groups to which policies apply that name a group. Such a policy concerns the nodes on which these groups have members.
#[derive(Drop)]
pub struct Naming {
    /// Of the policies that have the group among their peers.
    pub as_peer: List<GroupKey>,
    /// Of the policies that apply to the group.
    pub as_applied: List<GroupKey>,
}

/// A name that changes touch, with what its messages to all nodes have in common.
#[derive(Drop)]
pub struct TouchedName {
    pub name: StreamName,
    /// The change of all members of the group, where the name is a group's.
    pub members: List<StreamChange>,
    /// Who names the group before the changes.
    pub before: Naming,
    /// Who names the group after them.
    pub after: Naming,
}

fn push_if_peer(found: &mut Vec<GroupKey>, g: &GroupKey, policy: &Policy) -> Result<(), NoMemory>
    ensures { OnOk result (found.new.items ≡ found.old.items ++ applied_with_peer g.now policy.now) }
{
    if names_peer(policy, g) {
        copy_groups(found, policy.applied.as_slice())?;
    }
    Ok(())
}

fn push_if_applied(found: &mut Vec<GroupKey>, g: &GroupKey, policy: &Policy) -> Result<(), NoMemory>
    ensures { OnOk result (found.new.items ≡ found.old.items ++ applied_along g.now policy.now) }
{
    if has_group(policy.applied.as_slice(), g) {
        copy_groups(found, policy.applied.as_slice())?;
    }
    Ok(())
}

fn named_as_peer(
    alloc: Global,
    policies: &[Policy],
    g: &GroupKey,
) -> Result<Vec<GroupKey>, NoMemory>
    ensures { IfOk result (λ found. found.items ≡ flat_map (applied_with_peer g.now) policies.now) }
{
    let mut found = Vec::new(alloc);
    for policy in policies {
        push_if_peer(&mut found, g, policy)?;
    }
    Ok(found)
}

fn named_as_applied(
    alloc: Global,
    policies: &[Policy],
    g: &GroupKey,
) -> Result<Vec<GroupKey>, NoMemory>
    ensures { IfOk result (λ found. found.items ≡ flat_map (applied_along g.now) policies.now) }
{
    let mut found = Vec::new(alloc);
    for policy in policies {
        push_if_applied(&mut found, g, policy)?;
    }
    Ok(found)
}

fn who_names(alloc: Global, policies: &[Policy], g: &GroupKey) -> Result<Naming, NoMemory>
    ensures { IfOk result (λ found. found ≡ who_names policies.now g.now) }
{
    Ok(Naming {
        as_peer: List::of(named_as_peer(alloc, policies, g)?),
        as_applied: List::of(named_as_applied(alloc, policies, g)?),
    })
}

fn nobody(alloc: Global) -> Naming
    ensures { result ≡ nobody }
{
    Naming {
        as_peer: List::new(alloc),
        as_applied: List::new(alloc),
    }
}

/// The group with all its members.
pub(crate) fn whole_group(
    alloc: Global,
    groups: &GroupIndex,
    g: &GroupKey,
) -> Result<StreamObject, NoMemory>
    ensures { IfOk result (λ object. object ≡ whole_group groups.now g.now) }
{
    let members = all_told(alloc, groups, g)?;
    Ok(StreamObject::Group {
        group: g.copy()?,
        members,
    })
}

fn members_changed(
    alloc: Global,
    old: &GroupIndex,
    new: &GroupIndex,
    g: &GroupKey,
) -> Result<Vec<StreamChange>, NoMemory>
    ensures { IfOk result (λ changes. changes.items ≡ members_changed old.now new.now g.now) }
{
    let before = whole_group(alloc, old, g)?;
    let after = whole_group(alloc, new, g)?;
    let mut changes = Vec::new(alloc);
    push_change(&mut changes, Some(&before), Some(&after))?;
    Ok(changes)
}

fn touched_group(
    alloc: Global,
    c: &Cluster,
    old: &GroupIndex,
    d: &Cluster,
    new: &GroupIndex,
    g: &GroupKey,
) -> Result<TouchedName, NoMemory>
    ensures { IfOk result (λ touched. touched ≡ touched_group c.now.cluster old.now d.now.cluster new.now g.now) }
{
    Ok(TouchedName {
        name: StreamName::Group(g.copy()?),
        members: List::of(members_changed(alloc, old, new, g)?),
        before: who_names(alloc, c.policies(), g)?,
        after: who_names(alloc, d.policies(), g)?,
    })
}

fn touched_name(
    alloc: Global,
    c: &Cluster,
    old: &GroupIndex,
    d: &Cluster,
    new: &GroupIndex,
    name: &StreamName,
) -> Result<TouchedName, NoMemory>
    ensures { IfOk result (λ touched. touched ≡ touched_name c.now.cluster old.now d.now.cluster new.now name.now) }
{
    match name {
        StreamName::Group(g) => touched_group(alloc, c, old, d, new, g),
        _ => Ok(TouchedName {
            name: name.copy()?,
            members: List::new(alloc),
            before: nobody(alloc),
            after: nobody(alloc),
        }),
    }
}

/// Each of the names with what its messages to all nodes have in common, between the one cluster with its groups and the
/// other.
pub fn all_touched(
    alloc: Global,
    c: &Cluster,
    old: &GroupIndex,
    d: &Cluster,
    new: &GroupIndex,
    names: &[TitledName],
) -> Result<Vec<TouchedName>, NoMemory>
    ensures { IfOk result (λ touched. touched.items ≡ map (touched_name c.now.cluster old.now d.now.cluster new.now) names.now) }
{
    let mut touched = Vec::new(alloc);
    for titled in names {
        touched.push(touched_name(alloc, c, old, d, new, titled.name())?)?;
    }
    Ok(touched)
}
