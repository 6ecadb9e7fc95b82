//! Members of groups in order.
ghost use Rattle.std.specs.Prelude.{◌≡◌, [], ◌++◌, IfOk, OnOk, refl, unwrap_or, option_copied};
ghost use Rattle.std.specs.Cmp.{partial_order_from_agreeing_total, partial_equiv_from_equiv, eq_by_cmp_equiv};
ghost use Rattle.std.specs.Cmp.Lexicographic.{slice_cmp};
ghost use Rattle.std.specs.declared.cmp.Ordering.TheVariants.{Equal};
ghost use Rattle.std.specs.Ordering.{as_partial_cmp, eq_by_cmp};
ghost use Rattle.cl_types.specs.Ascending.{Ascends, sorted_set};
ghost use Rattle.cluster_types.specs.Pod.{proto_place};
ghost use Rattle.watch_streams.specs.Difference.{members_without, patched};
ghost use Rattle.watch_streams.specs.MemberOrder.{member_order_total};
ghost use Rattle.watch_streams.specs.Net.{member_order, numbered_port_order, ascending_members};

use crate::net::HeldMember;
use cl_types::{Copies, Keyed, List, NamedPort, NoMemory, Proto, put, remove};
use std::alloc::Global;
use std::cmp::Ordering;

pub(crate) fn proto_place(proto: Proto) -> u8
    ensures { result ≡ proto_place proto }
{
    match proto {
        Proto::Tcp => 0,
        Proto::Udp => 1,
        Proto::Sctp => 2,
        Proto::Icmp => 3,
    }
}

fn port_cmp(a: &NamedPort, b: &NamedPort) -> Ordering
    ensures { result ≡ numbered_port_order a.now b.now }
{
    a.name
        .cmp(&b.name)
        .then(proto_place(a.proto).cmp(&proto_place(b.proto)))
        .then(a.port.cmp(&b.port))
}

fn ports_cmp(a: &[NamedPort], b: &[NamedPort]) -> Ordering
    ensures { result ≡ slice_cmp numbered_port_order a.now b.now }
{
    for i in 0..a.len() {
        if i == b.len() {
            return Ordering::Greater;
        }
        let order = port_cmp(&a[i], &b[i]);
        if order.is_ne() {
            return order;
        }
    }
    if a.len() < b.len() {
        Ordering::Less
    } else {
        Ordering::Equal
    }
}

/// By address, then by ports.
impl Ord for HeldMember {
    ghost cmp = { member_order };

    ghost total = { member_order_total };

    ghost matches_partial_cmp = { λ a b. refl };

    ghost matches_eq = { λ a b. refl };

    fn cmp(&self, other: &HeldMember) -> Ordering {
        self.address
            .cmp(&other.address)
            .then(ports_cmp(self.ports.as_slice(), other.ports.as_slice()))
    }
}

impl PartialOrd for HeldMember {
    ghost partial_cmp = { as_partial_cmp member_order };

    ghost laws = { partial_order_from_agreeing_total member_order member_order_total (λ a b. refl) (λ a b. refl) };

    fn partial_cmp(&self, other: &HeldMember) -> Option<Ordering> {
        Some(self.cmp(other))
    }
}

impl PartialEq for HeldMember {
    ghost eq = { eq_by_cmp member_order };

    ghost laws = { partial_equiv_from_equiv (eq_by_cmp_equiv member_order_total) };

    fn eq(&self, other: &HeldMember) -> bool {
        self.cmp(other).is_eq()
    }
}

impl Eq for HeldMember {
    ghost laws = { eq_by_cmp_equiv member_order_total };
}

/// A member is its own key.
impl Keyed for HeldMember {
    type Key = HeldMember;

    ghost key = { λ m. m };

    fn key(&self) -> &HeldMember {
        self
    }
}

/// Sorts the items and keeps each once.
pub fn sort_once<T: Ord + Drop>(items: &mut Vec<T>) -> Result<(), NoMemory>
    requires { (x y : T) → T.cmp x y ≡ Equal → x ≡ y }
    ensures { OnOk result (items.new.items ≡ sorted_set T.cmp items.old.items) }
{
    items.sort()?;
    items.dedup();
    Ok(())
}

/// The same members, ascending and each once.
pub fn ascending_members(mut members: List<HeldMember>) -> Result<List<HeldMember>, NoMemory>
    ensures { IfOk result (λ sorted. sorted ≡ ascending_members members) }
{
    sort_once(members.vec_mut())?;
    Ok(members)
}

// A copy of the members of a group, where it is held.
fn copies(alloc: Global, members: Option<&List<HeldMember>>) -> Result<List<HeldMember>, NoMemory>
    ensures { IfOk result (λ copy. copy ≡ unwrap_or (option_copied members.entry) []) }
{
    match members {
        Some(members) => members.copy(),
        None => Ok(List::new(alloc)),
    }
}

// Inserts the added members.
fn insert_all(members: &mut Vec<HeldMember>, mut added: List<HeldMember>) -> Result<(), NoMemory>
    requires { Ascends (λ m. m) member_order members.old.items }
    ensures ok { OnOk result (members.new.items ≡ ascending_members (added ++ members.old.items)) }
    ensures ascend { Ascends (λ m. m) member_order members.new.items }
{
    while let Some(member) = added.vec_mut().pop() {
        put(members, member)?;
    }
    Ok(())
}

// Removes the removed members.
fn remove_all(members: &mut Vec<HeldMember>, removed: &[HeldMember])
    requires { Ascends (λ m. m) member_order members.old.items }
    ensures { members.new.items ≡ members_without members.old.items removed.now }
{
    for i in 0..removed.len() {
        let _ = remove(members, &removed[i]);
    }
}

/// The old members with the added ones and without the removed ones.
pub fn patched_members(
    alloc: Global,
    old: Option<&List<HeldMember>>,
    added: List<HeldMember>,
    removed: &[HeldMember],
) -> Result<List<HeldMember>, NoMemory>
    requires { Ascends (λ m. m) member_order (unwrap_or (option_copied old) []) }
    ensures { IfOk result (λ members. members ≡ patched (unwrap_or (option_copied old.entry) []) added removed.now) }
{
    let mut members = copies(alloc, old)?;
    insert_all(members.vec_mut(), added)?;
    remove_all(members.vec_mut(), removed);
    Ok(members)
}
