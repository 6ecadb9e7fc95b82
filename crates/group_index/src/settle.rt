//! The members of a group at some addresses, before and after a change, and how the group's members move.
ghost use Rattle.std.specs.Prelude.{◌≡◌, ◌++◌, [], None, Some, if◌then◌else◌, map, IfOk, OnOk};
ghost use Rattle.std.specs.List.{flat_map};
ghost use Rattle.std.specs.Option.{option_to_list};
ghost use Rattle.cl_types.specs.Ascending.{found};
ghost use Rattle.cluster_types.specs.Groups.{in_group};
ghost use Rattle.group_index.specs.Changes.{group_change};
ghost use Rattle.group_index.specs.Members.{member_of, members_of};
ghost use Rattle.group_index.specs.Settled.{AscendByAddress, DiffersAt, Fits, FitsIf, at_address, edit_to, edited_by, here_at, moved_if, picked};

use crate::change::{GroupChange, push_change};
use crate::gather::member_of;
use crate::member::Member;
use crate::moves::{Edit, Moves};
use crate::sorted::sorted;
use cl_types::{Addr, Copies, List, NoMemory, Same, find};
use cluster_objects::{Cluster, Pod};
use label_select::GroupKey;
use std::alloc::Global;

fn push_some(members: &mut Vec<Member>, m: Option<Member>) -> Result<(), NoMemory>
    ensures { OnOk result (members.new.items ≡ members.old.items ++ option_to_list m) }
{
    if let Some(m) = m {
        members.push(m)?;
    }
    Ok(())
}

// The member at the address.
fn copy_at(members: &[Member], a: &Addr) -> Result<Option<Member>, NoMemory>
    requires { AscendByAddress members.now }
    ensures { IfOk result (λ m. m ≡ found (at_address a.now) members.now) }
{
    match find(members, a) {
        Some(m) => Ok(Some(m.copy()?)),
        None => Ok(None),
    }
}

fn copies_at(alloc: Global, members: &[Member], addresses: &[Addr]) -> Result<Vec<Member>, NoMemory>
    requires { AscendByAddress members.now }
    ensures { IfOk result (λ v. v.items ≡ flat_map (here_at members.now) addresses.now) }
{
    let mut copies = Vec::new(alloc);
    for a in addresses {
        push_some(&mut copies, copy_at(members, a)?)?;
    }
    Ok(copies)
}

/// The members at these addresses, by address.
pub(crate) fn picked(
    alloc: Global,
    members: &[Member],
    addresses: &[Addr],
) -> Result<Vec<Member>, NoMemory>
    requires { AscendByAddress members.now }
    ensures { IfOk result (λ v. v.items ≡ picked addresses.now members.now) }
{
    sorted(alloc, copies_at(alloc, members, addresses)?)
}

// The pod's member at the address, where the group contains the pod.
fn member_if_in(c: &Cluster, g: &GroupKey, pod: &Pod, a: Addr) -> Result<Option<Member>, NoMemory>
    ensures { IfOk result (λ m. m ≡ (if in_group c.now.cluster g.now pod.now then Some (member_of pod.now a) else None)) }
{
    if !c.in_group(g, pod) {
        return Ok(None);
    }
    Ok(Some(member_of(pod, a)?))
}

// The group's member at the address, at the cluster.
fn member_at(c: &Cluster, g: &GroupKey, a: Addr) -> Result<Option<Member>, NoMemory>
    ensures { IfOk result (λ m. m ≡ found (at_address a) (members_of c.now.cluster g.now)) }
{
    match c.pod_at(a) {
        Some(pod) => member_if_in(c, g, pod, a),
        None => Ok(None),
    }
}

fn members_at(
    alloc: Global,
    c: &Cluster,
    g: &GroupKey,
    addresses: &[Addr],
) -> Result<Vec<Member>, NoMemory>
    ensures { IfOk result (λ v. v.items ≡ flat_map (here_at (members_of c.now.cluster g.now)) addresses.now) }
{
    let mut members = Vec::new(alloc);
    for a in addresses {
        push_some(&mut members, member_at(c, g, *a)?)?;
    }
    Ok(members)
}

/// The members of the group at these addresses, at the cluster, by address.
pub(crate) fn picked_now(
    alloc: Global,
    c: &Cluster,
    g: &GroupKey,
    addresses: &[Addr],
) -> Result<Vec<Member>, NoMemory>
    ensures { IfOk result (λ v. v.items ≡ picked addresses.now (members_of c.now.cluster g.now)) }
{
    sorted(alloc, members_at(alloc, c, g, addresses)?)
}

// The edits that put what the group has at these addresses, at the cluster.
fn edits_at(
    alloc: Global,
    c: &Cluster,
    g: &GroupKey,
    addresses: &[Addr],
) -> Result<Vec<Edit>, NoMemory>
    ensures { IfOk result (λ v. v.items ≡ map (edit_to (members_of c.now.cluster g.now)) addresses.now) }
{
    let mut edits = Vec::with_capacity(alloc, addresses.len())?;
    for a in addresses {
        let member = member_at(c, g, *a)?;
        edits.push(Edit {
            address: *a,
            member,
        })?;
    }
    Ok(edits)
}

// The edits by which members that differ at these addresses alone become those at the cluster.
fn moves_of(
    alloc: Global,
    c: &Cluster,
    g: &GroupKey,
    members: &[Member],
    addresses: &[Addr],
) -> Result<Moves, NoMemory>
    requires { DiffersAt addresses.now members.now (members_of c.now.cluster g.now) }
    ensures members { IfOk result (λ m. edited_by m.edits.items members.now ≡ members_of c.now.cluster g.now) }
    ensures places { IfOk result (λ m. Fits m members.now) }
{
    let edits = edits_at(alloc, c, g, addresses)?;
    Moves::of(alloc, edits, members)
}

/// Appends what changes in the group, and answers how its members move, where they differ.
pub(crate) fn draft_of(
    changes: &mut Vec<GroupChange>,
    c: &Cluster,
    g: &GroupKey,
    members: &List<Member>,
    addresses: &[Addr],
) -> Result<Option<Moves>, NoMemory>
    requires { DiffersAt addresses.now members.now (members_of c.now.cluster g.now) }
    ensures changes { OnOk result (changes.new.items ≡ changes.old.items ++ group_change g.now members.now (members_of c.now.cluster g.now)) }
    ensures draft { IfOk result (λ d. moved_if d members.now ≡ members_of c.now.cluster g.now) }
    ensures places { IfOk result (λ d. FitsIf d members.now) }
{
    let alloc = *changes.allocator();
    let old = List::of(picked(alloc, members.as_slice(), addresses)?);
    let new = List::of(picked_now(alloc, c, g, addresses)?);
    if old.same(&new) {
        return Ok(None);
    }
    push_change(changes, g, &old, &new)?;
    Ok(Some(moves_of(alloc, c, g, members.as_slice(), addresses)?))
}
