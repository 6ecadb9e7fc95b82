//! The names that a change touches.
ghost use Rattle.std.specs.Prelude.{◌≡◌, ◌++◌, [], cond, filter, OnOk};
ghost use Rattle.std.specs.List.{AllByRecursion, flat_map};
ghost use Rattle.cl_types.specs.PolicyName.{IsPolicyName};
ghost use Rattle.touched_names.specs.Standing.{IsName};
ghost use Rattle.touched_names.specs.Touching.{applies_to_some, egress_applies_to_some, egress_names, group_names, policy_names};

use crate::naming::has_group;
use cl_types::{Copies, NoMemory, PolicyKey};
use cluster_types::{EgressObj, Policy};
use label_select::{GroupKey, group_form};
use stream_messages::policy_groups;
use watch_streams::StreamName;

/// Appends the names of these groups.
pub fn push_group_names(names: &mut Vec<StreamName>, groups: &[GroupKey]) -> Result<(), NoMemory>
    ensures { OnOk result (names.new.items ≡ names.old.items ++ group_names groups.now) }
{
    for g in groups {
        names.push(StreamName::Group(g.copy()?))?;
    }
    Ok(())
}

/// Appends the names that the policy brings: its own, and those of the groups that it names.
pub fn push_policy_names(names: &mut Vec<StreamName>, policy: &Policy) -> Result<(), NoMemory>
    ensures { OnOk result (names.new.items ≡ names.old.items ++ policy_names policy.now) }
{
    let alloc = *names.allocator();
    let peers = policy_groups(alloc, policy.rules.as_slice())?;
    names.push(StreamName::Policy(policy.key.copy()?))?;
    push_group_names(names, policy.applied.as_slice())?;
    push_group_names(names, peers.as_slice())
}

/// Appends the names that the Egress brings: its own, and that of the group to which it applies.
pub fn push_egress_names(names: &mut Vec<StreamName>, egress: &EgressObj) -> Result<(), NoMemory>
    ensures { OnOk result (names.new.items ≡ names.old.items ++ egress_names egress.now) }
{
    names.push(StreamName::Egress(egress.name.copy()?))?;
    names.push(StreamName::Group(egress.applied.copy()?))?;
    Ok(())
}

fn applies_to_some(groups: &[GroupKey], policy: &Policy) -> bool
    ensures { result ≡ applies_to_some groups.now policy.now }
{
    policy
        .applied
        .as_slice()
        .iter()
        .any(|g| has_group(groups, g))
}

fn push_policy_if(
    names: &mut Vec<StreamName>,
    groups: &[GroupKey],
    policy: &Policy,
) -> Result<(), NoMemory>
    ensures { OnOk result (names.new.items ≡ names.old.items ++ cond (applies_to_some groups.now policy.now) (policy_names policy.now) []) }
{
    if applies_to_some(groups, policy) {
        push_policy_names(names, policy)?;
    }
    Ok(())
}

// The names that these policies bring, of those that apply to one of the groups.
fn push_policies_of(
    names: &mut Vec<StreamName>,
    groups: &[GroupKey],
    policies: &[Policy],
) -> Result<(), NoMemory>
    ensures { OnOk result (names.new.items ≡ names.old.items ++ flat_map (λ p. cond (applies_to_some groups.now p) (policy_names p) []) policies.now) }
{
    for policy in policies {
        push_policy_if(names, groups, policy)?;
    }
    Ok(())
}

fn push_egress_if(
    names: &mut Vec<StreamName>,
    groups: &[GroupKey],
    egress: &EgressObj,
) -> Result<(), NoMemory>
    ensures { OnOk result (names.new.items ≡ names.old.items ++ cond (egress_applies_to_some groups.now egress.now) (egress_names egress.now) []) }
{
    if has_group(groups, &egress.applied) {
        push_egress_names(names, egress)?;
    }
    Ok(())
}

fn push_egresses_of(
    names: &mut Vec<StreamName>,
    groups: &[GroupKey],
    egresses: &[EgressObj],
) -> Result<(), NoMemory>
    ensures { OnOk result (names.new.items ≡ names.old.items ++ flat_map (λ e. cond (egress_applies_to_some groups.now e) (egress_names e) []) egresses.now) }
{
    for egress in egresses {
        push_egress_if(names, groups, egress)?;
    }
    Ok(())
}

/// Appends the names of the groups that have moved, and those that these policies and Egresses bring that apply to a group
/// that has spread.
pub fn push_moved_names(
    names: &mut Vec<StreamName>,
    moved: &[GroupKey],
    spread: &[GroupKey],
    policies: &[Policy],
    egresses: &[EgressObj],
) -> Result<(), NoMemory>
    ensures { OnOk result (names.new.items ≡ names.old.items ++ (group_names moved.now ++ (flat_map policy_names (filter (applies_to_some spread.now) policies.now) ++ flat_map egress_names (filter (egress_applies_to_some spread.now) egresses.now)))) }
{
    push_group_names(names, moved)?;
    push_policies_of(names, spread, policies)?;
    push_egresses_of(names, spread, egresses)?;
    Ok(())
}

fn policy_form(key: &PolicyKey)
    ensures { IsPolicyName key.now.kind key.now.namespace key.now.name }
{
    let _ = &key.kind;
}

/// The name has what its type keeps. It changes nothing.
pub fn name_form(name: &StreamName)
    ensures { IsName name.now }
{
    match name {
        StreamName::Policy(key) => policy_form(key),
        StreamName::Egress(_) => {}
        StreamName::Group(group) => group_form(group),
    }
}

/// The names have what their types keep. It changes nothing.
pub fn are_names(names: &[StreamName])
    ensures { AllByRecursion IsName names.now }
{
    for name in names {
        name_form(name);
    }
}
