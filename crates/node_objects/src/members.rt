//! Members of groups as agents are told them.
ghost use Rattle.std.specs.Prelude.{◌≡◌, ◌++◌, ◌∷◌, [], cond, map, IfOk, OnOk};
ghost use Rattle.node_objects.specs.Indexed.{all_told, indexed_members, on_told, told, told_on};
ghost use Rattle.group_index.specs.Members.{is_member_on};

use cl_types::{Copies, List, NoMemory, Text};
use group_index::{GroupIndex, Member};
use label_select::GroupKey;
use std::alloc::Global;
use watch_streams::HeldMember;

fn told(m: &Member) -> Result<HeldMember, NoMemory>
    ensures { IfOk result (λ held. held ≡ told m.now) }
{
    Ok(HeldMember {
        address: m.address,
        ports: m.ports.copy()?,
    })
}

fn told_all(alloc: Global, members: &[Member]) -> Result<Vec<HeldMember>, NoMemory>
    ensures { IfOk result (λ held. held.items ≡ map told members.now) }
{
    let mut held = Vec::new(alloc);
    for m in members {
        held.push(told(m)?)?;
    }
    Ok(held)
}

fn is_member_on(node: &Text, m: &Member) -> bool
    ensures { result ≡ is_member_on node.now m.now }
{
    m.node == *node
}

fn push_if_on(held: &mut Vec<HeldMember>, node: &Text, m: &Member) -> Result<(), NoMemory>
    ensures { OnOk result (held.new.items ≡ held.old.items ++ cond (is_member_on node.now m.now) (told m.now ∷ []) []) }
{
    if is_member_on(node, m) {
        held.push(told(m)?)?;
    }
    Ok(())
}

fn told_on(alloc: Global, node: &Text, members: &[Member]) -> Result<Vec<HeldMember>, NoMemory>
    ensures { IfOk result (λ held. held.items ≡ told_on node.now members.now) }
{
    let mut held = Vec::new(alloc);
    for m in members {
        push_if_on(&mut held, node, m)?;
    }
    Ok(held)
}

/// The members of a group, none where it is not in use. It does not allocate.
pub fn members_in<'a>(groups: &'a GroupIndex, g: &GroupKey) -> &'a [Member]
    ensures { result.now ≡ indexed_members groups.now g.now }
{
    match groups.members(g) {
        Some(members) => members.as_slice(),
        None => &[],
    }
}

/// All members of a group.
pub(crate) fn all_told(
    alloc: Global,
    groups: &GroupIndex,
    g: &GroupKey,
) -> Result<List<HeldMember>, NoMemory>
    ensures { IfOk result (λ members. members ≡ all_told groups.now g.now) }
{
    Ok(List::of(told_all(alloc, members_in(groups, g))?))
}

/// The members of a group that are on a node.
pub(crate) fn on_told(
    alloc: Global,
    groups: &GroupIndex,
    node: &Text,
    g: &GroupKey,
) -> Result<List<HeldMember>, NoMemory>
    ensures { IfOk result (λ members. members ≡ on_told groups.now node.now g.now) }
{
    Ok(List::of(told_on(alloc, node, members_in(groups, g))?))
}
