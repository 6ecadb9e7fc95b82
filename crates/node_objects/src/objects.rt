//! What belongs on a stream of a node.
ghost use Rattle.std.specs.Prelude.{◌≡◌, ◌≢◌, ◌++◌, ◌∷◌, [], cond, map, IfOk, OnOk, option_copied};
ghost use Rattle.std.specs.List.{AllByRecursion, flat_map};
ghost use Rattle.cluster_types.specs.Policy.{PolicyData};
ghost use Rattle.cluster_types.specs.Cluster.{IsCluster};
ghost use Rattle.node_objects.specs.Indexed.{all_objects, all_told, applied_groups_of, egress_applied_on, egress_objects, group_objects, indexed, on_told, peer_groups_of, peer_groups_on, policy_applied_on, policy_objects};
ghost use Rattle.node_objects.specs.Sides.{IsSide};
ghost use Rattle.watch_streams.specs.Names.{by_name};
ghost use Rattle.watch_streams.specs.Net.{IsNetPolicy};
ghost use Rattle.watch_streams.specs.Projection.{group_object, net_policy, projection};

use crate::members::{all_told, on_told};
use crate::spans::{is_egress_on, is_policy_on};
use cl_types::{Copies, List, NoMemory, Stream, Text};
use cluster_objects::Cluster;
use cluster_types::{EgressObj, Policy};
use group_index::GroupIndex;
use label_select::GroupKey;
use std::alloc::Global;
use stream_messages::{
    copy_groups, groups_by_text, net_egress, net_policy, policy_groups, sorted_by_name,
};
use watch_streams::{Objects, StreamObject};

// The policy, where it concerns the node.
fn push_policy(
    found: &mut Vec<StreamObject>,
    groups: &GroupIndex,
    node: &Text,
    policy: &Policy,
) -> Result<(), NoMemory>
    requires { policy.now.applied ≢ [] → IsNetPolicy (net_policy policy.now) }
    ensures { OnOk result (found.new.items ≡ found.old.items ++ policy_objects groups.now node.now policy.now) }
{
    let alloc = *found.allocator();
    if is_policy_on(groups, node, policy) {
        found.push(StreamObject::Policy(net_policy(alloc, policy)?))?;
    }
    Ok(())
}

fn push_policies(
    found: &mut Vec<StreamObject>,
    policies: &[Policy],
    groups: &GroupIndex,
    node: &Text,
) -> Result<(), NoMemory>
    requires { AllByRecursion (λ (p : PolicyData). p.applied ≢ [] → IsNetPolicy (net_policy p)) policies.now }
    ensures { OnOk result (found.new.items ≡ found.old.items ++ flat_map (policy_objects groups.now node.now) policies.now) }
{
    for policy in policies {
        push_policy(found, groups, node, policy)?;
    }
    Ok(())
}

// The Egress, where it concerns the node.
fn push_egress(
    found: &mut Vec<StreamObject>,
    c: &Cluster,
    groups: &GroupIndex,
    node: &Text,
    egress: &EgressObj,
) -> Result<(), NoMemory>
    ensures { OnOk result (found.new.items ≡ found.old.items ++ egress_objects c.now.cluster groups.now node.now egress.now) }
{
    if is_egress_on(c, groups, node, egress) {
        found.push(StreamObject::Egress(net_egress(egress)?))?;
    }
    Ok(())
}

fn push_egresses(
    found: &mut Vec<StreamObject>,
    c: &Cluster,
    groups: &GroupIndex,
    node: &Text,
) -> Result<(), NoMemory>
    ensures { OnOk result (found.new.items ≡ found.old.items ++ flat_map (egress_objects c.now.cluster groups.now node.now) c.now.cluster.egresses) }
{
    let egresses = c.egresses();
    for egress in egresses {
        push_egress(found, c, groups, node, egress)?;
    }
    Ok(())
}

// The policies and Egresses that concern the node, by name.
fn on_policies(
    alloc: Global,
    c: &Cluster,
    groups: &GroupIndex,
    node: &Text,
) -> Result<Vec<StreamObject>, NoMemory>
    ensures { IfOk result (λ objects. objects.items ≡ by_name (all_objects c.now.cluster groups.now node.now)) }
{
    c.keeps_its_form();
    watch_streams::policies_on_streams_are_whole();
    let mut found = Vec::new(alloc);
    push_policies(&mut found, c.policies(), groups, node)?;
    push_egresses(&mut found, c, groups, node)?;
    sorted_by_name(alloc, found)
}

fn push_peer_groups(
    found: &mut Vec<GroupKey>,
    groups: &GroupIndex,
    node: &Text,
    policy: &Policy,
) -> Result<(), NoMemory>
    ensures { OnOk result (found.new.items ≡ found.old.items ++ peer_groups_on groups.now node.now policy.now) }
{
    let alloc = *found.allocator();
    if is_policy_on(groups, node, policy) {
        let mut more = policy_groups(alloc, policy.rules.as_slice())?;
        found.append(&mut more)?;
    }
    Ok(())
}

// The groups of peers of the policies that concern the node.
fn peer_groups_of(
    alloc: Global,
    policies: &[Policy],
    groups: &GroupIndex,
    node: &Text,
) -> Result<Vec<GroupKey>, NoMemory>
    ensures { IfOk result (λ found. found.items ≡ flat_map (peer_groups_on groups.now node.now) policies.now) }
{
    let mut found = Vec::new(alloc);
    for policy in policies {
        push_peer_groups(&mut found, groups, node, policy)?;
    }
    Ok(found)
}

fn push_policy_applied(
    found: &mut Vec<GroupKey>,
    groups: &GroupIndex,
    node: &Text,
    policy: &Policy,
) -> Result<(), NoMemory>
    ensures { OnOk result (found.new.items ≡ found.old.items ++ policy_applied_on groups.now node.now policy.now) }
{
    if is_policy_on(groups, node, policy) {
        copy_groups(found, policy.applied.as_slice())?;
    }
    Ok(())
}

fn push_policies_applied(
    found: &mut Vec<GroupKey>,
    policies: &[Policy],
    groups: &GroupIndex,
    node: &Text,
) -> Result<(), NoMemory>
    ensures { OnOk result (found.new.items ≡ found.old.items ++ flat_map (policy_applied_on groups.now node.now) policies.now) }
{
    for policy in policies {
        push_policy_applied(found, groups, node, policy)?;
    }
    Ok(())
}

fn push_egress_applied(
    found: &mut Vec<GroupKey>,
    c: &Cluster,
    groups: &GroupIndex,
    node: &Text,
    egress: &EgressObj,
) -> Result<(), NoMemory>
    ensures { OnOk result (found.new.items ≡ found.old.items ++ egress_applied_on c.now.cluster groups.now node.now egress.now) }
{
    if is_egress_on(c, groups, node, egress) {
        found.push(egress.applied.copy()?)?;
    }
    Ok(())
}

fn push_egresses_applied(
    found: &mut Vec<GroupKey>,
    c: &Cluster,
    groups: &GroupIndex,
    node: &Text,
) -> Result<(), NoMemory>
    ensures { OnOk result (found.new.items ≡ found.old.items ++ flat_map (egress_applied_on c.now.cluster groups.now node.now) c.now.cluster.egresses) }
{
    let egresses = c.egresses();
    for egress in egresses {
        push_egress_applied(found, c, groups, node, egress)?;
    }
    Ok(())
}

// The groups to which the policies and Egresses apply that concern the node.
fn applied_groups_of(
    alloc: Global,
    c: &Cluster,
    groups: &GroupIndex,
    node: &Text,
) -> Result<Vec<GroupKey>, NoMemory>
    ensures { IfOk result (λ found. found.items ≡ applied_groups_of c.now.cluster groups.now node.now) }
{
    let mut found = Vec::new(alloc);
    push_policies_applied(&mut found, c.policies(), groups, node)?;
    push_egresses_applied(&mut found, c, groups, node)?;
    Ok(found)
}

// The groups with all their members.
fn whole_groups(
    alloc: Global,
    groups: &GroupIndex,
    named: &[GroupKey],
) -> Result<Vec<StreamObject>, NoMemory>
    ensures { IfOk result (λ objects. objects.items ≡ map (group_object (all_told groups.now)) named.now) }
{
    let mut objects = Vec::new(alloc);
    for g in named {
        let members = all_told(alloc, groups, g)?;
        objects.push(StreamObject::Group {
            group: g.copy()?,
            members,
        })?;
    }
    Ok(objects)
}

// The groups with their members on the node.
fn groups_on(
    alloc: Global,
    groups: &GroupIndex,
    node: &Text,
    named: &[GroupKey],
) -> Result<Vec<StreamObject>, NoMemory>
    ensures { IfOk result (λ objects. objects.items ≡ map (group_object (on_told groups.now node.now)) named.now) }
{
    let mut objects = Vec::new(alloc);
    for g in named {
        let members = on_told(alloc, groups, node, g)?;
        objects.push(StreamObject::Group {
            group: g.copy()?,
            members,
        })?;
    }
    Ok(objects)
}

fn on_addresses(
    alloc: Global,
    c: &Cluster,
    groups: &GroupIndex,
    node: &Text,
) -> Result<Vec<StreamObject>, NoMemory>
    ensures { IfOk result (λ objects. objects.items ≡ group_objects (all_told groups.now) (peer_groups_of c.now.cluster groups.now node.now)) }
{
    let found = peer_groups_of(alloc, c.policies(), groups, node)?;
    let found = groups_by_text(alloc, found)?;
    whole_groups(alloc, groups, found.as_slice())
}

fn on_applied(
    alloc: Global,
    c: &Cluster,
    groups: &GroupIndex,
    node: &Text,
) -> Result<Vec<StreamObject>, NoMemory>
    ensures { IfOk result (λ objects. objects.items ≡ group_objects (on_told groups.now node.now) (applied_groups_of c.now.cluster groups.now node.now)) }
{
    let found = applied_groups_of(alloc, c, groups, node)?;
    let found = groups_by_text(alloc, found)?;
    groups_on(alloc, groups, node, found.as_slice())
}

fn indexed(
    alloc: Global,
    c: &Cluster,
    groups: &GroupIndex,
    s: Stream,
    node: &Text,
) -> Result<Vec<StreamObject>, NoMemory>
    ensures { IfOk result (λ objects. objects.items ≡ indexed c.now.cluster groups.now s node.now) }
{
    match s {
        Stream::Policies => on_policies(alloc, c, groups, node),
        Stream::Addresses => on_addresses(alloc, c, groups, node),
        Stream::Applied => on_applied(alloc, c, groups, node),
    }
}

/// What belongs on a stream of a node at the cluster, by name. The members of groups are those of the index.
pub fn objects_on(
    alloc: Global,
    c: &Cluster,
    groups: &GroupIndex,
    s: Stream,
    node: &Text,
) -> Result<Objects, NoMemory>
    requires { IsSide c.now.cluster groups.now }
    ensures { IfOk result (λ objects. objects ≡ projection c.now.cluster s node.now) }
{
    c.keeps_its_form();
    watch_streams::projections_are_maps();
    watch_streams::messages_name_once();
    Ok(Objects::of(List::of(indexed(alloc, c, groups, s, node)?)))
}
