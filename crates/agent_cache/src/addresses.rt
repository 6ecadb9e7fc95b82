//! Addresses of the members of groups.
ghost use Rattle.std.specs.Prelude.{◌≡◌, ◌++◌, [], map, unwrap_or, IfOk, OnOk};
ghost use Rattle.cl_types.specs.Addr.{addr_order};
ghost use Rattle.cl_types.specs.Ascending.{sorted_set};
ghost use Rattle.held_maps.specs.Held.{maps_of, map_on};
ghost use Rattle.watch_streams.specs.HeldEvaluation.{held_group};
ghost use Rattle.watch_streams.specs.InForce.{addresses_in, member_address, members_in};

use cl_types::{Addr, List, NoMemory, Stream, orders_are_exact};
use held_maps::Held;
use label_select::GroupKey;
use std::alloc::Global;
use watch_streams::{HeldMember, sort_once};

fn push_members(out: &mut Vec<Addr>, members: &[HeldMember]) -> Result<(), NoMemory>
    ensures { OnOk result (out.new.items ≡ out.old.items ++ map member_address members.now) }
{
    for m in members {
        out.push(m.address)?;
    }
    Ok(())
}

fn push_group(out: &mut Vec<Addr>, held: &Held, s: Stream, g: &GroupKey) -> Result<(), NoMemory>
    ensures { OnOk result (out.new.items ≡ out.old.items ++ map member_address (unwrap_or (held_group (map_on s (maps_of held.now)) g.now) [])) }
{
    if let Some(members) = held.group(s, g) {
        push_members(out, members.as_slice())?;
    }
    Ok(())
}

/// Appends the addresses of the held members of the groups.
pub(crate) fn push_groups(
    out: &mut Vec<Addr>,
    held: &Held,
    s: Stream,
    groups: &[GroupKey],
) -> Result<(), NoMemory>
    ensures { OnOk result (out.new.items ≡ out.old.items ++ map member_address (members_in (map_on s (maps_of held.now)) groups.now)) }
{
    for g in groups {
        push_group(out, held, s, g)?;
    }
    Ok(())
}

/// The addresses in ascending order, each once.
pub(crate) fn sorted_addresses(mut addresses: Vec<Addr>) -> Result<List<Addr>, NoMemory>
    ensures { IfOk result (λ sorted. sorted ≡ sorted_set addr_order addresses.items) }
{
    orders_are_exact();
    sort_once(&mut addresses)?;
    Ok(List::of(addresses))
}

/// The addresses of the held members of the groups, ascending, each once.
pub(crate) fn addresses_in(
    alloc: Global,
    held: &Held,
    s: Stream,
    groups: &[GroupKey],
) -> Result<List<Addr>, NoMemory>
    ensures { IfOk result (λ addresses. addresses ≡ addresses_in (map_on s (maps_of held.now)) groups.now) }
{
    let mut addresses = Vec::new(alloc);
    push_groups(&mut addresses, held, s, groups)?;
    sorted_addresses(addresses)
}
