//! Which groups may have come to other nodes.
ghost use Rattle.std.specs.Prelude.{◌≡◌, ◌&&◌, ◌++◌, ◌∷◌, [], cond, not, IfOk, OnOk};
ghost use Rattle.ctl_core.specs.Spread.{has_come, has_spread, some_alone, spread_groups, stays_on};
ghost use Rattle.group_index.specs.Index.{entry_of, members_in};
ghost use Rattle.group_index.specs.Members.{is_member_on};

use cl_types::{Copies, NoMemory, Text};
use group_index::{GroupChange, GroupIndex, Member};
use label_select::GroupKey;
use node_objects::members_in;
use std::alloc::Global;

fn has_come(added: &[Member], m: &Member) -> bool
    ensures { result ≡ has_come added.now m.now }
{
    added.iter().any(|a| a.address == m.address)
}

fn has_stayed(added: &[Member], node: &Text, m: &Member) -> bool
    ensures { result ≡ (is_member_on node.now m.now && not (has_come added.now m.now)) }
{
    m.node == *node && !has_come(added, m)
}

fn stays_on(members: &[Member], added: &[Member], node: &Text) -> bool
    ensures { result ≡ stays_on members.now added.now node.now }
{
    members.iter().any(|m| has_stayed(added, node, m))
}

fn some_alone(members: &[Member], added: &[Member], moved: &[Member]) -> bool
    ensures { result ≡ some_alone members.now added.now moved.now }
{
    moved.iter().any(|m| !stays_on(members, added, &m.node))
}

fn has_spread(members: &[Member], change: &GroupChange) -> bool
    ensures { result ≡ has_spread members.now change.now }
{
    let added = change.added.as_slice();
    some_alone(members, added, added) || some_alone(members, added, change.removed.as_slice())
}

fn push_if_spread(
    groups: &mut Vec<GroupKey>,
    index: &GroupIndex,
    change: &GroupChange,
) -> Result<(), NoMemory>
    ensures { OnOk result (groups.new.items ≡ groups.old.items ++ cond (has_spread (members_in (entry_of index.now change.now.group)) change.now) (change.now.group ∷ []) []) }
{
    if has_spread(members_in(index, &change.group), change) {
        groups.push(change.group.copy()?)?;
    }
    Ok(())
}

/// Of the groups that changed so those that may have come to a node or left one. The index has their members now.
pub(crate) fn spread_groups(
    alloc: Global,
    index: &GroupIndex,
    changes: &[GroupChange],
) -> Result<Vec<GroupKey>, NoMemory>
    ensures { IfOk result (λ groups. groups.items ≡ spread_groups index.now changes.now) }
{
    let mut groups = Vec::new(alloc);
    for change in changes {
        push_if_spread(&mut groups, index, change)?;
    }
    Ok(groups)
}
