//! What changes on a stream of a node under a name that changes touch.
ghost use Rattle.std.specs.Prelude.{◌≡◌, ◌++◌, IfOk, OnOk};
ghost use Rattle.std.specs.List.{list_any};
ghost use Rattle.node_objects.specs.Indexed.{all_told, on_told};
ghost use Rattle.node_objects.specs.Sides.{IsSide};
ghost use Rattle.node_objects.specs.Touched.{IsTouched, applies_there, members_changed, some_on};
ghost use Rattle.node_objects.specs.UnderName.{egress_applies_on, egress_under, policy_under, under_name};
ghost use Rattle.touched_names.specs.Standing.{group_standing, standing};
ghost use Rattle.watch_streams.specs.Difference.{changed};

use crate::members::on_told;
use crate::named::{egress_under, policy_under};
use crate::spans::{is_egress_on, some_on};
use crate::touched::{Naming, TouchedName, whole_group};
use cl_types::{Copies, NoMemory, PolicyKey, Stream, Text};
use cluster_objects::Cluster;
use cluster_types::EgressObj;
use group_index::GroupIndex;
use label_select::{GroupKey, group_texts_differ};
use std::alloc::Global;
use stream_messages::push_change;
use touched_names::{is_group, name_form};
use watch_streams::{StreamChange, StreamName, StreamObject};

fn push_policy(
    changes: &mut Vec<StreamChange>,
    c: &Cluster,
    old: &GroupIndex,
    d: &Cluster,
    new: &GroupIndex,
    node: &Text,
    key: &PolicyKey,
) -> Result<(), NoMemory>
    ensures { OnOk result (changes.new.items ≡ changes.old.items ++ changed (policy_under c.now.cluster old.now node.now key.now) (policy_under d.now.cluster new.now node.now key.now)) }
{
    let alloc = *changes.allocator();
    let before = policy_under(alloc, c, old, node, key)?;
    let after = policy_under(alloc, d, new, node, key)?;
    push_change(changes, before.as_ref(), after.as_ref())?;
    Ok(())
}

fn push_egress(
    changes: &mut Vec<StreamChange>,
    c: &Cluster,
    old: &GroupIndex,
    d: &Cluster,
    new: &GroupIndex,
    node: &Text,
    name: &Text,
) -> Result<(), NoMemory>
    ensures { OnOk result (changes.new.items ≡ changes.old.items ++ changed (egress_under c.now.cluster old.now node.now name.now) (egress_under d.now.cluster new.now node.now name.now)) }
{
    let before = egress_under(c, old, node, name)?;
    let after = egress_under(d, new, node, name)?;
    push_change(changes, before.as_ref(), after.as_ref())?;
    Ok(())
}

fn push_copies(changes: &mut Vec<StreamChange>, copied: &[StreamChange]) -> Result<(), NoMemory>
    ensures { OnOk result (changes.new.items ≡ changes.old.items ++ copied.now) }
{
    for change in copied {
        changes.push(change.copy()?)?;
    }
    Ok(())
}

fn whole_if(
    there: bool,
    alloc: Global,
    groups: &GroupIndex,
    g: &GroupKey,
) -> Result<Option<StreamObject>, NoMemory>
    ensures { IfOk result (λ object. object ≡ group_standing there (all_told groups.now) g.now) }
{
    if there {
        Ok(Some(whole_group(alloc, groups, g)?))
    } else {
        Ok(None)
    }
}

// The group comes, goes, or its members change.
fn push_whole(
    changes: &mut Vec<StreamChange>,
    before: bool,
    after: bool,
    old: &GroupIndex,
    new: &GroupIndex,
    g: &GroupKey,
) -> Result<(), NoMemory>
    ensures { OnOk result (changes.new.items ≡ changes.old.items ++ changed (group_standing before (all_told old.now) g.now) (group_standing after (all_told new.now) g.now)) }
{
    let alloc = *changes.allocator();
    let gone = whole_if(before, alloc, old, g)?;
    let come = whole_if(after, alloc, new, g)?;
    push_change(changes, gone.as_ref(), come.as_ref())?;
    Ok(())
}

// A group that stays on the node changes as it does for all nodes.
fn push_peers(
    changes: &mut Vec<StreamChange>,
    before: bool,
    after: bool,
    old: &GroupIndex,
    new: &GroupIndex,
    g: &GroupKey,
    members: &[StreamChange],
) -> Result<(), NoMemory>
    requires { members.now ≡ members_changed old.now new.now g.now }
    ensures { OnOk result (changes.new.items ≡ changes.old.items ++ changed (group_standing before (all_told old.now) g.now) (group_standing after (all_told new.now) g.now)) }
{
    if before && after {
        push_copies(changes, members)
    } else {
        push_whole(changes, before, after, old, new, g)
    }
}

fn on_node_if(
    there: bool,
    alloc: Global,
    groups: &GroupIndex,
    node: &Text,
    g: &GroupKey,
) -> Result<Option<StreamObject>, NoMemory>
    ensures { IfOk result (λ object. object ≡ group_standing there (on_told groups.now node.now) g.now) }
{
    if !there {
        return Ok(None);
    }
    let members = on_told(alloc, groups, node, g)?;
    Ok(Some(StreamObject::Group {
        group: g.copy()?,
        members,
    }))
}

fn push_on_node(
    changes: &mut Vec<StreamChange>,
    before: bool,
    after: bool,
    old: &GroupIndex,
    new: &GroupIndex,
    node: &Text,
    g: &GroupKey,
) -> Result<(), NoMemory>
    ensures { OnOk result (changes.new.items ≡ changes.old.items ++ changed (group_standing before (on_told old.now node.now) g.now) (group_standing after (on_told new.now node.now) g.now)) }
{
    let alloc = *changes.allocator();
    let gone = on_node_if(before, alloc, old, node, g)?;
    let come = on_node_if(after, alloc, new, node, g)?;
    push_change(changes, gone.as_ref(), come.as_ref())?;
    Ok(())
}

fn egress_applies_on(
    c: &Cluster,
    groups: &GroupIndex,
    node: &Text,
    g: &GroupKey,
    egress: &EgressObj,
) -> bool
    ensures { result ≡ egress_applies_on c.now.cluster groups.now node.now g.now egress.now }
{
    is_group(g, &egress.applied) && is_egress_on(c, groups, node, egress)
}

fn some_egress_applies_on(c: &Cluster, groups: &GroupIndex, node: &Text, g: &GroupKey) -> bool
    ensures { result ≡ list_any (egress_applies_on c.now.cluster groups.now node.now g.now) c.now.cluster.egresses }
{
    let egresses = c.egresses();
    egresses
        .iter()
        .any(|e| egress_applies_on(c, groups, node, g, e))
}

fn applies_there(
    c: &Cluster,
    groups: &GroupIndex,
    node: &Text,
    g: &GroupKey,
    naming: &Naming,
) -> bool
    ensures { result ≡ applies_there c.now.cluster groups.now node.now g.now naming.now }
{
    some_on(groups, node, naming.as_applied.as_slice())
        || some_egress_applies_on(c, groups, node, g)
}

// A group changes on the stream of addresses.
fn push_addresses(
    changes: &mut Vec<StreamChange>,
    old: &GroupIndex,
    new: &GroupIndex,
    node: &Text,
    g: &GroupKey,
    touched: &TouchedName,
) -> Result<(), NoMemory>
    requires { touched.now.members ≡ members_changed old.now new.now g.now }
    ensures { OnOk result (changes.new.items ≡ changes.old.items ++ changed (group_standing (some_on old.now node.now touched.now.before.as_peer) (all_told old.now) g.now) (group_standing (some_on new.now node.now touched.now.after.as_peer) (all_told new.now) g.now)) }
{
    let before = some_on(old, node, touched.before.as_peer.as_slice());
    let after = some_on(new, node, touched.after.as_peer.as_slice());
    push_peers(
        changes,
        before,
        after,
        old,
        new,
        g,
        touched.members.as_slice(),
    )
}

// A group changes on the stream of applied groups.
fn push_applied(
    changes: &mut Vec<StreamChange>,
    c: &Cluster,
    old: &GroupIndex,
    d: &Cluster,
    new: &GroupIndex,
    node: &Text,
    g: &GroupKey,
    touched: &TouchedName,
) -> Result<(), NoMemory>
    ensures { OnOk result (changes.new.items ≡ changes.old.items ++ changed (group_standing (applies_there c.now.cluster old.now node.now g.now touched.now.before) (on_told old.now node.now) g.now) (group_standing (applies_there d.now.cluster new.now node.now g.now touched.now.after) (on_told new.now node.now) g.now)) }
{
    let before = applies_there(c, old, node, g, &touched.before);
    let after = applies_there(d, new, node, g, &touched.after);
    push_on_node(changes, before, after, old, new, node, g)
}

fn push_under(
    changes: &mut Vec<StreamChange>,
    c: &Cluster,
    old: &GroupIndex,
    d: &Cluster,
    new: &GroupIndex,
    s: Stream,
    node: &Text,
    touched: &TouchedName,
) -> Result<(), NoMemory>
    requires { IsTouched c.now.cluster old.now d.now.cluster new.now touched.now }
    ensures { OnOk result (changes.new.items ≡ changes.old.items ++ changed (under_name c.now.cluster old.now s node.now touched.now.name) (under_name d.now.cluster new.now s node.now touched.now.name)) }
{
    match (s, &touched.name) {
        (Stream::Policies, StreamName::Policy(key)) => {
            push_policy(changes, c, old, d, new, node, key)
        }
        (Stream::Policies, StreamName::Egress(name)) => {
            push_egress(changes, c, old, d, new, node, name)
        }
        (Stream::Addresses, StreamName::Group(g)) => {
            push_addresses(changes, old, new, node, g, touched)
        }
        (Stream::Applied, StreamName::Group(g)) => {
            push_applied(changes, c, old, d, new, node, g, touched)
        }
        _ => Ok(()),
    }
}

/// Appends what changes on a stream of a node under the name, between the one cluster with its groups and the other.
pub fn push_touched(
    changes: &mut Vec<StreamChange>,
    c: &Cluster,
    old: &GroupIndex,
    d: &Cluster,
    new: &GroupIndex,
    s: Stream,
    node: &Text,
    touched: &TouchedName,
) -> Result<(), NoMemory>
    requires old { IsSide c.now.cluster old.now }
    requires new { IsSide d.now.cluster new.now }
    requires touched { IsTouched c.now.cluster old.now d.now.cluster new.now touched.now }
    ensures { OnOk result (changes.new.items ≡ changes.old.items ++ changed (standing c.now.cluster s node.now touched.now.name) (standing d.now.cluster s node.now touched.now.name)) }
{
    c.keeps_its_form();
    d.keeps_its_form();
    group_texts_differ();
    name_form(&touched.name);
    push_under(changes, c, old, d, new, s, node, touched)?;
    Ok(())
}
